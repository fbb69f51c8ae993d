// The work of the calls over residues, on what was judged. n stands beside the table, since it is the data's as well; and that the data lies below m
// is a clause of each, since a type around what is written would be taken apart at every step.
#![tactic(auto)]

ghost use Rattle.std.specs.Prelude.{true, ◌≡◌, ◌-◌, ◌^◌, ◌≤◌, ◌<◌, length};
ghost use Rattle.answer.specs.Lists.{at, tabulate};
ghost use Rattle.fourier.specs.Schedules.{step};
ghost use Rattle.fourier.specs.Numbers.{frequency_mod};
ghost use Rattle.residues.specs.Judgement.{Below};
ghost use Rattle.modular_judgement.specs.Schedules.{number_of, single_number};
ghost use Rattle.modular_judgement.specs.Verdicts.{scratch_fits};
ghost use Rattle.modular_work.specs.Works.{by_schedule, cleared, stage_of};

use butterflies::{Frequency, Residues, Time};
use counting::{Multiples, Reversals};
use modular_judgement::{Schedule, Single};
use residues::Roots;

// All n stages of the schedule: one of five, over residues. In fixed point there are three, so each carrier has its own match, where the schedule's
// number becomes its stages.
pub fn do_schedule(schedule: Schedule, buf: &mut [u32], roots: Roots, n: usize, scratch: &mut [u32])
    requires below { Below roots.modulus.value buf.old }
    requires le_n { (1 ≤ n) × (length buf.old ≡ 2 ^ n) × (length roots.table.now ≡ 2 ^ (n - 1)) }
    requires scratch_len { scratch_fits (number_of schedule) (length scratch.old) (length buf.old) ≡ true }
    ensures buf_after { buf.new ≡ tabulate (length buf.old)
        (by_schedule (number_of schedule) n roots.entry.modulus.value (length roots.entry.table.now) (at roots.entry.table.now) (at buf.old)) }
    ensures scratch_after { scratch.new ≡ cleared (number_of schedule) scratch.old }
{
    match schedule {
        Schedule::Columns => stages::by_columns::<Residues, _>(buf, Frequency(roots), n),
        Schedule::Shuffle => stages::by_turns::<Residues, _, Multiples>(
            buf,
            scratch,
            Frequency(roots),
            n,
        ),
        Schedule::Halves => stages::by_halves::<Residues, _>(buf, Frequency(roots), 1),
        Schedule::Thong => stages::by_thong::<Residues, _>(buf, Time(roots), n),
        Schedule::Pease => stages::by_turns::<Residues, _, Reversals>(buf, scratch, Time(roots), n),
    }
}

// Stage s of schedule 1 or 2. The `match` is where the schedule's number becomes its stage.
pub fn do_stage(
    schedule: Single,
    s: usize,
    buf: &mut [u32],
    roots: Roots,
    n: usize,
    scratch: &mut [u32],
)
    requires below { Below roots.modulus.value buf.old }
    requires s_lt_n { (s < n) × (length buf.old ≡ 2 ^ n) × (length roots.table.now ≡ 2 ^ (n - 1)) }
    requires scratch_len { scratch_fits (single_number schedule) (length scratch.old) (length buf.old) ≡ true }
    ensures buf_after { buf.new ≡ tabulate (length buf.old)
        (step (frequency_mod roots.entry.modulus.value (length roots.entry.table.now) (at roots.entry.table.now)) (stage_of (single_number schedule) n s) (at buf.old)) }
    ensures scratch_after { scratch.new ≡ cleared (single_number schedule) scratch.old }
{
    let by = Frequency(roots);
    match schedule {
        Single::Columns => stages::column_stage::<Residues, _>(buf, by, n, s),
        Single::Shuffle => stages::through_scratch::<Residues, _, Multiples>(
            buf, scratch, by, n, s,
        ),
    }
}
