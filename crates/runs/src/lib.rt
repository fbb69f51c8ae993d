// The inverse over residues.
#![tactic(auto)]

ghost use Rattle.std.specs.Prelude.{◌≡◌, ◌+◌, ◌-◌, ◌/◌, ◌%◌, ◌^◌, ◌≤◌, ◌<◌, length};
ghost use Rattle.answer.specs.Lists.{at, tabulate};
ghost use Rattle.fourier.specs.Numbers.{times_mod, inverse_mod};
ghost use Rattle.residues.specs.Judgement.{Below};

use butterflies::{Back, Residues};
use residues::{Modulus, Residue, Roots};

// "The inverse takes what schedules 1, 2, 3 and 5 leave, together with the forward table, and leaves the samples in order": T1 with
// x^(-e), and then every place times 1/N. n and `Below` stand beside the table, since they are the
// data's, which is written.
pub fn invert(buf: &mut [u32], roots: Roots, n: usize)
    requires below { Below roots.modulus.value buf.old }
    requires le_n { (1 ≤ n) × (length buf.old ≡ 2 ^ n) × (length roots.table.now ≡ 2 ^ (n - 1)) }
    ensures { buf.new ≡ tabulate (length buf.old)
        (inverse_mod roots.entry.modulus.value n (at roots.entry.table.now) (at buf.old)) }
{
    stages::by_thong::<Residues, _>(buf, Back(roots), n);
    let by = factor(roots.modulus, n);
    scale(buf, by, roots.modulus);
}

// "The factor 1/N is ((m + 1)/2)^n modulo m."
fn factor(m: Modulus, n: usize) -> Residue
    ensures { result.0 ≡ ((m.value + 1) / 2) ^ n % m.value }
{
    let half = Residue((m.value + 1) / 2);
    let mut power = Residue(1);
    for i in 0..n {
        power = m.times(power, half);
    }
    power
}

// Every place times a residue.
fn scale(buf: &mut [u32], by: Residue, m: Modulus)
    ensures { buf.new ≡ tabulate (length buf.old) (λ p. times_mod m.value by.0 (at buf.old p)) }
{
    for value in buf.iter_mut() {
        *value = m.times(by, Residue(*value)).0;
    }
}
