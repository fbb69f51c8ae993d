// The exponents of a stage of schedule 2 or 5, pair after pair.
#![tactic(auto)]

ghost use Rattle.std.specs.Prelude.{◌≡◌, suc, ◌+◌, ◌-◌, ◌*◌, ◌%◌, ◌^◌, ◌≤◌, ◌<◌};
ghost use Rattle.fourier.specs.Reverse.{rev};
ghost use Rattle.counting.specs.Exponents.{multiples, reversals, multiples_lawful, reversals_lawful};

use residues::Exponent;
use stages::Exponents;

// Schedule 2's exponents.
pub struct Multiples;

impl Exponents for Multiples {
    ghost of = { multiples };

    fn next(_e: Exponent, k: usize, _n: usize, s: usize) -> Exponent {
        Exponent(multiple(k + 1, s))
    }

    ghost laws = { multiples_lawful };
}

// Schedule 5's exponents.
pub struct Reversals;

impl Exponents for Reversals {
    ghost of = { reversals };

    fn next(e: Exponent, k: usize, n: usize, s: usize) -> Exponent {
        Exponent(reversed(e.0, k, n, s))
    }

    ghost laws = { reversals_lawful };
}

// Schedule 2's "k - (k mod 2^s)".
pub fn multiple(k: usize, s: usize) -> usize
    requires { s < 64 }
    ensures { result ≡ k - k % 2 ^ s }
{
    k >> s << s
}

// Counting with the low s bits of k reversed, below bit n - 1: from the top down ones become zeros, and the first zero a one. Bit by bit, since
// it ends at the first zero; e, k, n and s are the trait's.
fn reversed(e: usize, k: usize, n: usize, s: usize) -> usize
    requires s_lt_n { (s < n) × (n ≤ 12) × (k < 2048) }
    requires e_value { e ≡ 2 ^ (n - suc s) * rev s k }
    ensures { result ≡ 2 ^ (n - suc s) * rev s (k + 1) }
{
    let mut rest = e;
    let mut high = k;
    let mut bit = 1 << (n - 1);
    for past in 0..s {
        bit = bit / 2;
        if high % 2 == 0 {
            return rest + bit;
        }
        rest -= bit;
        high = high / 2;
    }
    0
}
