// The schedules by their numbers.
ghost use Rattle.std.specs.Prelude.{◌≡◌};
ghost use Rattle.modular_judgement.specs.Schedules.{Numbered, SingleNumbered, number_of, single_number};

use answer::Refusal;

// The five schedules, by number from 1. Fixed point offers three of them, so it has an enum of its own.
#[derive(Clone, Copy, Debug, PartialEq, Eq)]
pub enum Schedule {
    Columns,
    Shuffle,
    Halves,
    Thong,
    Pease,
}

// The schedules of which single stages are offered, 1 and 2.
#[derive(Clone, Copy, Debug, PartialEq, Eq)]
pub enum Single {
    Columns,
    Shuffle,
}

// The schedule of that number: 7 for another number.
#[tactic(auto, unfolding(crate::specs::Verdicts::offers))]
impl TryFrom<u32> for Schedule {
    type Error = Refusal;

    ghost try_from_gives = { Numbered };

    fn try_from(number: u32) -> Result<Schedule, Refusal> {
        match number {
            1 => Ok(Schedule::Columns),
            2 => Ok(Schedule::Shuffle),
            3 => Ok(Schedule::Halves),
            4 => Ok(Schedule::Thong),
            5 => Ok(Schedule::Pease),
            _ => Err(Refusal::Schedule),
        }
    }
}

// The schedule of that number, of a single stage: 7 for another number.
#[tactic(auto, unfolding(crate::specs::Verdicts::offers_stage))]
impl TryFrom<u32> for Single {
    type Error = Refusal;

    ghost try_from_gives = { SingleNumbered };

    fn try_from(number: u32) -> Result<Single, Refusal> {
        match number {
            1 => Ok(Single::Columns),
            2 => Ok(Single::Shuffle),
            _ => Err(Refusal::Schedule),
        }
    }
}

// A single stage's schedule is one of the five.
impl From<Single> for Schedule {
    ghost from_gives = { λ single schedule. number_of schedule ≡ single_number single };

    fn from(single: Single) -> Schedule {
        match single {
            Single::Columns => Schedule::Columns,
            Single::Shuffle => Schedule::Shuffle,
        }
    }
}
