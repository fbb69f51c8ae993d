// The whole transform: C's parameters, as in all calls. In fixed point there is no modulus, so the call stands there too.
ghost use Rattle.answer.specs.Choice.{answered};
ghost use Rattle.modular.specs.Outcomes.{TransformOutcome};

use answer::{Answer, Refusal};
use modular_judgement::judge_transform;
use modular_work::do_schedule;

// The transform of buf by the schedule, with the table modulo m: 7, 1, 2, 6, 3, 4, 5.
pub fn transform(
    schedule: u32,
    buf: &mut [u32],
    m: u32,
    table: &[u32],
    scratch: &mut [u32],
) -> Answer
    ensures { TransformOutcome schedule buf.old m table.now scratch.old
        result buf.new scratch.new }
{
    Answer::from(try_transform(schedule, buf, m, table, scratch))
}

// The same, with the refusal as it is.
pub fn try_transform(
    schedule: u32,
    buf: &mut [u32],
    m: u32,
    table: &[u32],
    scratch: &mut [u32],
) -> Result<(), Refusal>
    ensures { TransformOutcome schedule buf.old m table.now scratch.old
        (answered result) buf.new scratch.new }
{
    let (schedule, n, roots) = judge_transform(schedule, buf, m, table, scratch.len())?;
    do_schedule(schedule, buf, roots, n, scratch);
    Ok(())
}
