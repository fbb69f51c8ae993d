// Stages from one buffer into the other: schedules 2 and 5, in which buffer and scratch take turns.
ghost use Rattle.std.specs.Prelude.{◌≡◌, ℕ, ◌+◌, ◌-◌, ◌*◌, ◌^◌, ◌≤◌, ◌<◌, length};
ghost use Rattle.answer.specs.Lists.{tabulate};
ghost use Rattle.fourier.specs.Schedules.{run, shuffled, step};
ghost use Rattle.stages.specs.Laws.{held, zeros, ExponentsLaws};

use crate::{Places, Step};
use residues::Exponent;

// The exponents of the pairs of a stage, one after the other.
pub trait Exponents {
    // That of pair k in stage s of 2^n places.
    ghost of: { ℕ → ℕ → ℕ → ℕ };

    // That of pair k + 1, where e is that of pair k.
    fn next(e: Exponent, k: usize, n: usize, s: usize) -> Exponent
        requires s_lt_n { (s < n) × (n ≤ 12) × (k < 2048) }
        requires e_value { e.0 ≡ of n s k }
        ensures { result.0 ≡ of n s (k + 1) };

    ghost laws: { ExponentsLaws of };
}

// All n stages, two to a turn, there and back; a last one is moved back from scratch.
pub fn by_turns<P: Places, S: Step<P>, E: Exponents>(
    buf: &mut [P::Number],
    scratch: &mut [P::Number],
    by: S,
    n: usize,
)
    requires sizes { (1 ≤ n) × (n ≤ 12) × (length buf.old ≡ P.width * 2 ^ n) × (S.reach by ≡ 2 ^ (n - 1)) }
    requires grown { (p : ℕ) → S.Grown by 0 (held P.zero (P.values buf.old) p) }
    requires scratch_len { length scratch.old ≡ length buf.old }
    ensures after { P.values buf.new ≡ tabulate (2 ^ n) (run (S.wing by) (λ s. shuffled (2 ^ (n - 1)) (E.of n s)) n (held P.zero (P.values buf.old))) }
    ensures len { length buf.new ≡ length buf.old }
    ensures scratch_after { scratch.new ≡ zeros P.blank (length scratch.old) }
{
    for turn in 0..n / 2 {
        stage::<P, S, E>(buf, scratch, by, n, 2 * turn);
        stage::<P, S, E>(scratch, buf, by, n, 2 * turn + 1);
    }
    if n % 2 == 1 {
        through_scratch::<P, S, E>(buf, scratch, by, n, n - 1);
    } else {
        P::clear(scratch);
    }
}

// Stage s alone: into scratch, and what stands there back to the buffer.
pub fn through_scratch<P: Places, S: Step<P>, E: Exponents>(
    buf: &mut [P::Number],
    scratch: &mut [P::Number],
    by: S,
    n: usize,
    s: usize,
)
    requires sizes { (s < n) × (n ≤ 12) × (length buf.old ≡ P.width * 2 ^ n) × (S.reach by ≡ 2 ^ (n - 1)) }
    requires ready { (p : ℕ) → S.Ready by (held P.zero (P.values buf.old) p) }
    requires scratch_len { length scratch.old ≡ length buf.old }
    ensures after { P.values buf.new ≡ tabulate (2 ^ n) (step (S.wing by) (shuffled (2 ^ (n - 1)) (E.of n s)) (held P.zero (P.values buf.old))) }
    ensures len { length buf.new ≡ length buf.old }
    ensures scratch_after { scratch.new ≡ zeros P.blank (length scratch.old) }
{
    stage::<P, S, E>(buf, scratch, by, n, s);
    copy::<P>(scratch, buf);
    P::clear(scratch);
}

// What stands in one buffer, to the other. Number by number: `copy_from_slice` would be a call of C's `memmove`, which an archive for C has to
// get from outside.
fn copy<P: Places>(from: &[P::Number], to: &mut [P::Number])
    requires { length to.old ≡ length from.now }
    ensures { to.new ≡ from.now }
{
    for p in 0..from.len() {
        to[p] = from[p];
    }
}

// Stage s from one buffer into the other: places k and k + N/2 give places 2k and 2k + 1. By place, since the four lie apart in two buffers.
fn stage<P: Places, S: Step<P>, E: Exponents>(
    from: &[P::Number],
    to: &mut [P::Number],
    by: S,
    n: usize,
    s: usize,
)
    requires sizes { (s < n) × (n ≤ 12) × (length from.now ≡ P.width * 2 ^ n) × (S.reach by ≡ 2 ^ (n - 1)) }
    requires ready { (p : ℕ) → S.Ready by (held P.zero (P.values from.now) p) }
    requires to_len { length to.old ≡ length from.now }
    ensures after { P.values to.new ≡ tabulate (2 ^ n) (step (S.wing by) (shuffled (2 ^ (n - 1)) (E.of n s)) (held P.zero (P.values from.now))) }
    ensures len { length to.new ≡ length to.old }
{
    let half = 1 << (n - 1);
    let mut e = Exponent(0);
    for k in 0..half {
        let (low, high) = by.pair(P::at(from, k), P::at(from, k + half), e);
        P::put(to, 2 * k, low);
        P::put(to, 2 * k + 1, high);
        e = E::next(e, k, n, s);
    }
}
