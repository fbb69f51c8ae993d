// The five schedules over any carrier: values in a lent buffer, the step on a pair of them, and the stages that take it from pair to pair.
// Buffers, step and n are parameters, and sizes a clause of each function: what is asked differs (of all places, of a block, of a half at twice the
// stride, of two buffers), so that no one type's invariant says it.
#![tactic(auto)]

ghost use Rattle.std.specs.Prelude.{◌≡◌, ℕ, ◌≤◌, ◌<◌, List, length, get_or, set};
ghost use Rattle.fourier.specs.Schedules.{Wing};
ghost use Rattle.stages.specs.Laws.{zeros, PlacesLaws, StepLaws};

mod halves;
mod in_place;
mod turns;

pub use halves::by_halves;
pub use in_place::{block, by_columns, by_thong, column_stage, stage};
use residues::Exponent;
pub use turns::{Exponents, by_turns, through_scratch};

// Values in a lent buffer of numbers, one behind the other.
pub trait Places {
    type Number: Copy;

    type Value: Copy;

    ghost width: { ℕ };

    // What is read behind the end.
    ghost zero: { Self.Value };

    // The values of a buffer.
    ghost values: { List Self.Number → List Self.Value };

    // An all-zero number.
    ghost blank: { Self.Number };

    // How many values there are.
    fn count(buf: &[Self::Number]) -> usize
        ensures { result ≡ length (values buf.now) };

    // The value at place p.
    fn at(buf: &[Self::Number], p: usize) -> Self::Value
        requires { p < length (values buf.now) }
        ensures { result ≡ get_or (values buf.now) p zero };

    // The value at place p becomes v.
    fn put(buf: &mut [Self::Number], p: usize, v: Self::Value)
        requires { p < length (values buf.old) }
        ensures after { values buf.new ≡ set (values buf.old) p v }
        ensures len { length buf.new ≡ length buf.old };

    // Zeros everywhere.
    fn clear(buf: &mut [Self::Number])
        ensures { buf.new ≡ zeros blank (length buf.old) };

    ghost laws: { PlacesLaws width values };
}

// The step on a pair, with the table that it reads.
pub trait Step<P: Places>: Copy {
    ghost wing: { Self → Wing P.Value };

    // Exponents below it lie in the table.
    ghost reach: { Self → ℕ };

    // What a pair's places may hold, and what a place may hold after k stages.
    ghost Ready: { Self → P.Value → Type 0 };

    ghost Grown: { Self → ℕ → P.Value → Type 0 };

    // What the two places receive that held a and b, at the exponent e.
    fn pair(self, a: P::Value, b: P::Value, e: Exponent) -> (P::Value, P::Value)
        requires e_in_bounds { e.0 < reach self }
        requires ready { Ready self a × Ready self b }
        ensures first { result.0 ≡ wing self 0 e.0 a b }
        ensures second { result.1 ≡ wing self 1 e.0 a b };

    ghost laws: { StepLaws P.zero wing reach Ready Grown };
}
