// The inverse, and bit reversal: C's parameters, as in all calls.
ghost use Rattle.answer.specs.Choice.{answered};
ghost use Rattle.modular.specs.Outcomes.{InverseOutcome, ReverseOutcome};

use answer::{Answer, Refusal};
use butterflies::Residues;
use modular_judgement::judge_inverse;

// The samples, in order, of which buf holds the sums as schedules 1, 2, 3 and 5 leave them, with the forward table: 1, 2, 3, 4, 5.
pub fn inverse(buf: &mut [u32], m: u32, table: &[u32]) -> Answer
    ensures { InverseOutcome buf.old m table.now result buf.new }
{
    Answer::from(try_inverse(buf, m, table))
}

// The same, with the refusal as it is.
fn try_inverse(buf: &mut [u32], m: u32, table: &[u32]) -> Result<(), Refusal>
    ensures { InverseOutcome buf.old m table.now (answered result) buf.new }
{
    let (n, roots) = judge_inverse(buf, m, table)?;
    runs::invert(buf, roots, n);
    Ok(())
}

// buf with its places in reversed order: 1.
pub fn reverse(buf: &mut [u32]) -> Answer
    ensures { ReverseOutcome buf.old result buf.new }
{
    Answer::from(try_reverse(buf))
}

// The same, with the refusal as it is.
// Beside the reversal in fixed point, where an odd number of numbers is no buffer.
#[tactic(auto, using(modular_judgement::proofs::Tests::short), unfolding(modular_judgement::specs::Verdicts::reverse_verdict))]
fn try_reverse(buf: &mut [u32]) -> Result<(), Refusal>
    ensures { ReverseOutcome buf.old (answered result) buf.new }
{
    let n = answer::log_of(buf.len()).ok_or(Refusal::Length)?;
    reversal::reverse::<Residues>(buf, n);
    Ok(())
}
