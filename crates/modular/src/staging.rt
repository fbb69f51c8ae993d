// Single stages: C's parameters, as in all calls.
ghost use Rattle.answer.specs.Choice.{answered};
ghost use Rattle.modular.specs.Outcomes.{StageOutcome};

use answer::{Answer, Refusal};
use modular_judgement::judge_stage;
use modular_work::do_stage;

// Stage s of the schedule done to buf, with the table modulo m: 7, 1, 8, 2, 6, 3, 4, 5.
pub fn stage(
    schedule: u32,
    s: u32,
    buf: &mut [u32],
    m: u32,
    table: &[u32],
    scratch: &mut [u32],
) -> Answer
    ensures { StageOutcome schedule s buf.old m table.now scratch.old
        result buf.new scratch.new }
{
    Answer::from(try_stage(schedule, s, buf, m, table, scratch))
}

// The same, with the refusal as it is. `as`, since a `usize` has no `From` of a `u32`, and is wider.
fn try_stage(
    schedule: u32,
    s: u32,
    buf: &mut [u32],
    m: u32,
    table: &[u32],
    scratch: &mut [u32],
) -> Result<(), Refusal>
    ensures { StageOutcome schedule s buf.old m table.now scratch.old
        (answered result) buf.new scratch.new }
{
    let (schedule, n, roots) = judge_stage(schedule, s, buf, m, table, scratch.len())?;
    do_stage(schedule, s as usize, buf, roots, n, scratch);
    Ok(())
}
