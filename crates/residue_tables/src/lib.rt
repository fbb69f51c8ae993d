// The judgement of tables and samples over residues.
#![tactic(auto)]

ghost use Rattle.std.specs.Prelude.{◌≡◌, ◌-◌, ◌≤◌, eqb, length};
ghost use Rattle.answer.specs.Lists.{at};
ghost use Rattle.fourier.specs.Table.{root};
ghost use Rattle.residues.specs.Judgement.{bad_entry, bad_sample};

use residues::Modulus;

// The root of a table: "its second entry, or m - 1 when N = 2". Table and modulus side by side: they are `Roots` once they are judged.
#[tactic(auto, unfolding(fourier::specs::Table::root))]
fn root_of(table: &[u32], m: Modulus) -> u32
    requires in_bounds { 1 ≤ length table.now }
    ensures { result ≡ root m.value (length table.now) (at table.now) }
{
    match table {
        [_, x, ..] => *x,
        _ => m.value - 1,
    }
}

// The closing rule, "the last entry times x is m - 1", of that product.
fn closes(wanted: u32, m: Modulus) -> bool
    ensures { result ≡ eqb wanted (m.value - 1) }
{
    wanted == m.value - 1
}

// Refusal 4: the first place at which a rule of the table fails, or none; in fixed point the rules are others. A loop that breaks with the first
// such place or with none, the form that document 01 asks of a table test: what an entry must be comes from the one before it.
pub fn judge_table(table: &[u32], m: Modulus) -> Option<usize>
    requires in_bounds { 1 ≤ length table.now }
    ensures { result ≡ bad_entry m.value table.now }
{
    let x = root_of(table, m);
    let mut wanted = 1;
    let mut places = 0..table.len();
    loop {
        let Some(place) = places.next() else {
            break if closes(wanted, m) {
                None
            } else {
                Some(table.len())
            };
        };
        let entry = table[place];
        if entry != wanted {
            break Some(place);
        }
        wanted = m.product(entry, x);
    }
}

// Refusal 5: the first place of a sample at or above m, for any number m; in fixed point the range is one and has two ends.
pub fn judge_samples(buf: &[u32], m: u32) -> Option<usize>
    ensures { result ≡ bad_sample m buf.now }
{
    buf.iter().position(|x| m <= *x)
}
