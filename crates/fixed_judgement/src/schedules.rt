// The schedules of the transform by their numbers.
ghost use Rattle.fixed_judgement.specs.Schedules.{Numbered};

use answer::Refusal;

// The three schedules in fixed point, by number from 1. Over residues there are five, another type.
#[derive(Clone, Copy, Debug, PartialEq, Eq)]
pub enum Schedule {
    Columns,
    Shuffle,
    Halves,
}

// The schedule of that number: 7 for another number.
#[tactic(auto, unfolding(crate::specs::Verdicts::offers))]
impl TryFrom<u32> for Schedule {
    type Error = Refusal;

    ghost try_from_gives = { Numbered };

    fn try_from(number: u32) -> Result<Schedule, Refusal> {
        match number {
            1 => Ok(Schedule::Columns),
            2 => Ok(Schedule::Shuffle),
            3 => Ok(Schedule::Halves),
            _ => Err(Refusal::Schedule),
        }
    }
}
