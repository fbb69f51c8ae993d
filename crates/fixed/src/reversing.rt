// Bit reversal of pairs. Over residues the call stands too: its length is another, and C has two names.
ghost use Rattle.answer.specs.Choice.{answered};
ghost use Rattle.fixed.specs.Outcomes.{ReverseOutcome};

use answer::{Answer, Refusal};
use scan_stages::Points;

// buf with its pairs in reversed order: 1.
pub fn reverse(buf: &mut [i32]) -> Answer
    ensures { ReverseOutcome buf.old result buf.new }
{
    Answer::from(try_reverse(buf))
}

// The same, before a refusal is put in numbers.
#[tactic(auto, unfolding(fixed_judgement::specs::Verdicts::reverse_verdict))]
fn try_reverse(buf: &mut [i32]) -> Result<(), Refusal>
    ensures { ReverseOutcome buf.old (answered result) buf.new }
{
    let n = fixed_judgement::points_log(buf.len()).ok_or(Refusal::Length)?;
    reversal::reverse::<Points>(buf, n);
    Ok(())
}
