// The filling of a lent table from the sine table; over residues a table is worked out from a setting.
ghost use Rattle.std.specs.Prelude.{◌≡◌, ◌≤◌, length};
ghost use Rattle.answer.specs.Choice.{answered, if_done};
ghost use Rattle.answer.specs.Lengths.{log_of};
ghost use Rattle.sine.specs.Sine.{sine_table};
ghost use Rattle.sine.specs.Filling.{fixed_fill_verdict, FillOutcome};

use answer::{Answer, Refusal};

// Fills a table of N numbers with our own table for N. Refusal 3; it changes nothing.
pub fn fill(table: &mut [i32]) -> Answer
    ensures { FillOutcome table.old result table.new }
{
    Answer::from(try_fill(table))
}

// The same, before the refusal is put in numbers.
#[tactic(auto, unfolding(crate::specs::Filling::fixed_fill_verdict))]
fn try_fill(table: &mut [i32]) -> Result<(), Refusal>
    ensures answers { answered result ≡ fixed_fill_verdict table.old }
    ensures leaves { table.new ≡ if_done (fixed_fill_verdict table.old) (sine_table (log_of (length table.old))) table.old }
{
    answer::log_of(table.len()).ok_or(Refusal::TableLength)?;
    write_pairs(table);
    Ok(())
}

// Every (4,096/N)-th pair of the constant, pair by pair, where N is permitted. By place, since a pair is two numbers: of a slice whose
// parts `chunks_exact_mut` lent on, only the length is known afterwards. A function of its own in the code too: drawn into the one above, a
// refusal would take the constant's room as well.
#[inline(never)]
fn write_pairs(table: &mut [i32])
    requires { 1 ≤ log_of (length table.old) }
    ensures { table.new ≡ sine_table (log_of (length table.old)) }
{
    let numbers = crate::constant::numbers();
    let stride = 4096 / table.len();
    for p in 0..table.len() / 2 {
        points::put_point(table, p, points::point_at(&numbers, stride * p));
    }
}
