// Acceptance of a lent table, alone: C's parameters, as in all calls.
ghost use Rattle.std.specs.Prelude.{◌≡◌};
ghost use Rattle.answer.specs.Choice.{answered};
ghost use Rattle.modular_judgement.specs.Verdicts.{accept_verdict};
ghost use Rattle.modular.specs.Outcomes.{AcceptOutcome};

use answer::{Answer, Refusal};
use residues::Modulus;

// Whether the table is accepted modulo m: 2, 3, 4. N follows from the table's length.
pub fn accept(m: u32, table: &[u32]) -> Answer
    ensures { AcceptOutcome m table.now result }
{
    Answer::from(try_accept(m, table))
}

// The same, with the refusal as it is. Beside the acceptance in fixed point, which has other lengths and no modulus.
#[tactic(auto, using(crate::proofs::Passing::some_entry, modular_judgement::proofs::Tests::short), unfolding(modular_judgement::specs::Verdicts::accept_verdict))]
fn try_accept(m: u32, table: &[u32]) -> Result<(), Refusal>
    ensures { answered result ≡ accept_verdict m table.now }
{
    let m = Modulus::try_from(m)?;
    answer::table_log(table.len()).ok_or(Refusal::TableLength)?;
    match residue_tables::judge_table(table, m) {
        Some(place) => Err(Refusal::Entry(place)),
        None => Ok(()),
    }
}
