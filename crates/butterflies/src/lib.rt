// Residues in a lent buffer, and the steps on a pair of them.
#![tactic(auto)]

ghost use Rattle.std.specs.Prelude.{◌≡◌, ◌+◌, ◌-◌, ◌%◌, ◌≤◌, ◌<◌, length};
ghost use Rattle.answer.specs.Lists.{at};
ghost use Rattle.fourier.specs.Numbers.{frequency_mod, time_mod, back_mod, plus_mod, minus_mod, times_mod};
ghost use Rattle.butterflies.specs.Laws.{residue_places, positive, roots_fit, frequency_below, time_below, back_below};

use residues::{Exponent, Modulus, Residue, Roots};
use stages::{Places, Step};

// Numbers in a buffer, one a place: plain numbers, as C lends them, which the steps take for residues.
pub struct Residues;

impl Places for Residues {
    type Number = u32;

    type Value = u32;

    ghost width = { 1 };

    ghost zero = { 0 };

    ghost values = { λ l. l };

    ghost blank = { 0 };

    fn count(buf: &[u32]) -> usize {
        buf.len()
    }

    fn at(buf: &[u32], p: usize) -> u32 {
        buf[p]
    }

    fn put(buf: &mut [u32], p: usize, v: u32) {
        buf[p] = v;
    }

    // Here and over points: the trait knows what a cleared number is (`blank`) in ghost code alone.
    #[tactic(auto, using(stages::specs::Laws::zeros_replicate))]
    fn clear(buf: &mut [u32]) {
        buf.fill(0);
    }

    ghost laws = { residue_places };
}

// The steps: of schedules 1, 2 and 3; of schedules 4 and 5; and of the inverse. Three types, since they differ in `wing`, in `pair` and in why
// values stay below m; the rest, which is alike, the trait asks of each. They hold a lent table, which nothing compares or prints, so they derive
// no more than this.
#[derive(Clone, Copy)]
pub struct Frequency<'a>(pub Roots<'a>);

#[derive(Clone, Copy)]
pub struct Time<'a>(pub Roots<'a>);

#[derive(Clone, Copy)]
pub struct Back<'a>(pub Roots<'a>);

// The sum, and t times the difference.
impl<'a> Step<Residues> for Frequency<'a> {
    ghost wing = { λ s. frequency_mod s.0.modulus.value (length s.0.table.now) (at s.0.table.now) };

    ghost reach = { λ s. length s.0.table.now };

    ghost Ready = { λ s v. v < s.0.modulus.value };

    ghost Grown = { λ s k v. v < s.0.modulus.value };

    fn pair(self, a: u32, b: u32, e: Exponent) -> (u32, u32) {
        let m = self.0.modulus;
        let t = residues::lookup(self.0.table, e, m);
        let sum = m.plus(Residue(a), Residue(b));
        let difference = m.minus(Residue(a), Residue(b));
        let product = m.times(t, difference);
        (sum.0, product.0)
    }

    ghost laws = { record {
      fits = λ s. roots_fit s.0.few;
      ready = λ s k v h g. g;
      behind = λ s k. positive s.0.modulus.permitted;
      keeps = λ s k x e a b l h g. frequency_below _ _ _ x e a b (positive s.0.modulus.permitted);
    } };
}

// The second times t; then sum and difference.
impl<'a> Step<Residues> for Time<'a> {
    ghost wing = { λ s. time_mod s.0.modulus.value (length s.0.table.now) (at s.0.table.now) };

    ghost reach = { λ s. length s.0.table.now };

    ghost Ready = { λ s v. v < s.0.modulus.value };

    ghost Grown = { λ s k v. v < s.0.modulus.value };

    fn pair(self, a: u32, b: u32, e: Exponent) -> (u32, u32) {
        let t = residues::lookup(self.0.table, e, self.0.modulus);
        in_time(a, b, t, self.0.modulus)
    }

    ghost laws = { record {
      fits = λ s. roots_fit s.0.few;
      ready = λ s k v h g. g;
      behind = λ s k. positive s.0.modulus.permitted;
      keeps = λ s k x e a b l h g. time_below _ _ _ x e a b (positive s.0.modulus.permitted);
    } };
}

// The same, at the exponent -e.
impl<'a> Step<Residues> for Back<'a> {
    ghost wing = { λ s. back_mod s.0.modulus.value (length s.0.table.now) (at s.0.table.now) };

    ghost reach = { λ s. length s.0.table.now };

    ghost Ready = { λ s v. v < s.0.modulus.value };

    ghost Grown = { λ s k v. v < s.0.modulus.value };

    #[tactic(auto, unfolding(fourier::specs::Table::back))]
    fn pair(self, a: u32, b: u32, e: Exponent) -> (u32, u32) {
        let back = opposite(e, self.0.table.len());
        let t = residues::lookup(self.0.table, back, self.0.modulus);
        in_time(a, b, t, self.0.modulus)
    }

    ghost laws = { record {
      fits = λ s. roots_fit s.0.few;
      ready = λ s k v h g. g;
      behind = λ s k. positive s.0.modulus.permitted;
      keeps = λ s k x e a b l h g. back_below _ _ _ x e a b (positive s.0.modulus.permitted);
    } };
}

// The second times t; then sum and difference.
fn in_time(a: u32, b: u32, t: Residue, m: Modulus) -> (u32, u32)
    requires { (a < m.value) × (b < m.value) }
    ensures sum { result.0 ≡ plus_mod m.value a (times_mod m.value t.0 b) }
    ensures difference { result.1 ≡ minus_mod m.value a (times_mod m.value t.0 b) }
{
    let product = m.times(t, Residue(b));
    let sum = m.plus(Residue(a), product);
    let difference = m.minus(Residue(a), product);
    (sum.0, difference.0)
}

// The exponent -e, (N - e) mod N, for a table of N/2 entries.
fn opposite(e: Exponent, half: usize) -> Exponent
    requires { (e.0 < half) × (half ≤ 2048) }
    ensures { result.0 ≡ (half + half - e.0) % (half + half) }
{
    if e.0 == 0 {
        return e;
    }
    Exponent(half + half - e.0)
}
