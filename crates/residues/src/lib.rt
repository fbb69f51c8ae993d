// Residues modulo m and exponents of the root: the arithmetic and the lookup.
#![tactic(auto)]

ghost use Rattle.std.specs.Prelude.{◌≡◌, ◌+◌, ◌≤◌, ◌<◌, true, false, length, MatchResult};
ghost use Rattle.answer.specs.Lists.{at};
ghost use Rattle.fourier.specs.Numbers.{plus_mod, minus_mod, times_mod};
ghost use Rattle.fourier.specs.Table.{lookup};
ghost use Rattle.answer.specs.declared.Refusal.TheVariants as refusals;
ghost use Rattle.residues.specs.Moduli.{permits, Permitted};
ghost use Rattle.residues.specs.Judgement.{Below};

use answer::Refusal;

// A value modulo m.
#[repr(C)]
#[derive(Clone, Copy, Debug, PartialEq, Eq)]
pub struct Residue(pub u32);

// An exponent of the root. Only `lookup` leads from an exponent to a residue.
#[derive(Clone, Copy, Debug, PartialEq, Eq)]
pub struct Exponent(pub usize);

// The modulus m: odd, from 3 to 2^31 - 1.
#[derive(Clone, Copy, Debug, PartialEq, Eq)]
pub struct Modulus {
    pub value: u32,
    ghost permitted: { Permitted value },
}

// Whether m is odd, from 3 to 2^31 - 1: beside `try_from`, since its promise may not go.
#[tactic(auto, unfolding(crate::specs::Moduli::permits))]
pub fn permitted(m: u32) -> bool
    ensures { result ≡ permits m }
{
    3 <= m && m <= 2147483647 && m % 2 == 1
}

impl TryFrom<u32> for Modulus {
    type Error = Refusal;

    ghost try_from_gives = { λ m r. MatchResult r (λ k. (permits m ≡ true) × (k.value ≡ m)) (λ e. (permits m ≡ false) × (e ≡ refusals.Modulus)) };

    fn try_from(m: u32) -> Result<Modulus, Refusal> {
        if permitted(m) {
            Ok(Modulus { value: m })
        } else {
            Err(Refusal::Modulus)
        }
    }
}

impl Modulus {
    // The sum modulo m.
    pub fn plus(self, a: Residue, b: Residue) -> Residue
        requires { (a.0 < self.value) × (b.0 < self.value) }
        ensures { result.0 ≡ plus_mod self.value a.0 b.0 }
    {
        let sum = a.0 + b.0;
        if sum < self.value {
            Residue(sum)
        } else {
            Residue(sum - self.value)
        }
    }

    // The difference modulo m.
    pub fn minus(self, a: Residue, b: Residue) -> Residue
        requires { (a.0 < self.value) × (b.0 < self.value) }
        ensures { result.0 ≡ minus_mod self.value a.0 b.0 }
    {
        if a.0 < b.0 {
            Residue(a.0 + (self.value - b.0))
        } else {
            Residue(a.0 - b.0)
        }
    }

    // The product modulo m.
    pub fn times(self, a: Residue, b: Residue) -> Residue
        ensures { result.0 ≡ times_mod self.value a.0 b.0 }
    {
        Residue(self.product(a.0, b.0))
    }

    // The product modulo m of any two numbers, one reduction. The remainder fits, so `as` loses nothing.
    pub fn product(self, a: u32, b: u32) -> u32
        ensures { result ≡ times_mod self.value a b }
    {
        (u64::from(a) * u64::from(b) % u64::from(self.value)) as u32
    }
}

// A table with its modulus, as the judgement leaves it: its entries are below m, and 2,048 at most. Nothing compares or prints a lent table, so it
// derives no more than this.
#[derive(Clone, Copy)]
pub struct Roots<'a> {
    pub table: &'a [u32],
    pub modulus: Modulus,
    ghost below: { Below modulus.value table.now },
    ghost few: { length table.now ≤ 2048 },
}

// The root to the e: "an exponent e from N/2 to N - 1 means minus the entry at e - N/2". Of any table below m, beside its modulus: what this asks
// may not grow, and `Roots` ask for 2,048 entries at most.
pub fn lookup(table: &[u32], e: Exponent, m: Modulus) -> Residue
    requires below { Below m.value table.now }
    requires e_in_bounds { e.0 < length table.now + length table.now }
    ensures { result.0 ≡ lookup m.value (length table.now) (at table.now) e.0 }
{
    let place = e.0;
    if place < table.len() {
        return Residue(table[place]);
    }
    let entry = table[place - table.len()];
    m.minus(Residue(0), Residue(entry))
}
