// Schedule 3, by halves.
ghost use Rattle.std.specs.Prelude.{◌≡◌, ℕ, ◌*◌, ◌^◌, length};
ghost use Rattle.answer.specs.Lists.{tabulate};
ghost use Rattle.fourier.specs.Schedules.{halves, strided};
ghost use Rattle.stages.specs.Laws.{held, Halving};

use crate::{Places, Step, in_place};

// "The first stage of schedule 1, then the same on each half of the buffer, where each half is lent on to be written; the root of a
// half is x squared, so its exponents count double in the lent table."
pub fn by_halves<P: Places, S: Step<P>>(buf: &mut [P::Number], by: S, stride: usize)
    requires { Halving P.width stride (S.reach by) (length buf.old) (λ k. (p : ℕ) → S.Grown by k (held P.zero (P.values buf.old) p)) }
    ensures after { (n : ℕ) → length buf.old ≡ P.width * 2 ^ n → P.values buf.new ≡ tabulate (2 ^ n) (halves (strided stride (S.wing by)) n (held P.zero (P.values buf.old))) }
    ensures len { length buf.new ≡ length buf.old }
{
    // To a single place nothing is done. A block is a function of its own, so that the step is compiled into its loop.
    let h = P::count(buf) / 2;
    if 0 < h {
        in_place::block(buf, by, stride, h);
        if 1 < h {
            let middle = buf.len() / 2;
            by_halves(&mut buf[..middle], by, stride + stride);
            by_halves(&mut buf[middle..], by, stride + stride);
        }
    }
}
