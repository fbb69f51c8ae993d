// The transform: C's parameters, as in all calls. Over residues there is a modulus too, so the call stands there as well.
ghost use Rattle.answer.specs.Choice.{answered};
ghost use Rattle.fixed.specs.Outcomes.{TransformOutcome};

use answer::{Answer, Refusal};

// The transform of buf by the schedule, with the table: 7, 1, 6, 3, 4, 5. Beside the call over residues, which has a modulus and other
// refusals.
pub fn transform(schedule: u32, buf: &mut [i32], table: &[i32], scratch: &mut [i32]) -> Answer
    ensures { TransformOutcome schedule buf.old table.now scratch.old
        result buf.new scratch.new }
{
    Answer::from(try_transform(schedule, buf, table, scratch))
}

// The same, before a refusal is put in numbers.
#[tactic(auto, using(crate::proofs::Judged::judged_scanned, crate::proofs::Judged::judged_sizes, crate::proofs::Judged::judged_scratch))]
fn try_transform(
    schedule: u32,
    buf: &mut [i32],
    table: &[i32],
    scratch: &mut [i32],
) -> Result<(), Refusal>
    ensures { TransformOutcome schedule buf.old table.now scratch.old
        (answered result) buf.new scratch.new }
{
    let (schedule, n) = fixed_judgement::judge_transform(schedule, buf, table, scratch.len())?;
    fixed_work::do_schedule(schedule, buf, table, n, scratch);
    Ok(())
}
