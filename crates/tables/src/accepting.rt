// Acceptance of a lent table, alone. Over residues a modulus is judged first, so the call stands there too.
ghost use Rattle.std.specs.Prelude.{◌≡◌};
ghost use Rattle.answer.specs.Choice.{answered};
ghost use Rattle.tables.specs.Acceptance.{fixed_accept_verdict, AcceptOutcome};

use answer::{Answer, Refusal};

// Whether the table is accepted: 3, 4. N follows from the table's length.
pub fn accept(table: &[i32]) -> Answer
    ensures { AcceptOutcome table.now result }
{
    Answer::from(try_accept(table))
}

// The same, before the refusal is put in numbers.
#[tactic(auto, unfolding(crate::specs::Acceptance::fixed_accept_verdict))]
fn try_accept(table: &[i32]) -> Result<(), Refusal>
    ensures { answered result ≡ fixed_accept_verdict table.now }
{
    answer::log_of(table.len()).ok_or(Refusal::TableLength)?;
    if let Some(place) = crate::judge_table(table) {
        return Err(Refusal::Entry(place));
    }
    Ok(())
}
