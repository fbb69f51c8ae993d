// Stages in place: block after block, and in a block pair after pair; schedules 1 and 4.
ghost use Rattle.std.specs.Prelude.{◌≡◌, ℕ, ◌+◌, ◌-◌, ◌*◌, ◌^◌, ◌≤◌, ◌<◌, length};
ghost use Rattle.answer.specs.Lists.{tabulate};
ghost use Rattle.fourier.specs.Schedules.{butterfly, columns, step, schedule1, schedule4};
ghost use Rattle.stages.specs.Laws.{held};

use crate::{Places, Step};
use residues::Exponent;

// One stage on a single block of 2h places: its h pairs, at the exponents 0, stride, 2 stride, .. By place, since a pair stands h places apart, and
// a carrier says how many numbers a place has.
pub fn block<P: Places, S: Step<P>>(buf: &mut [P::Number], by: S, stride: usize, h: usize)
    requires buf_len { length buf.old ≡ P.width * (h + h) }
    requires ready { (p : ℕ) → S.Ready by (held P.zero (P.values buf.old) p) }
    requires le_stride { (1 ≤ stride) × (stride * h ≤ S.reach by) }
    ensures after { P.values buf.new ≡ tabulate (h + h) (step (S.wing by) (butterfly stride h) (held P.zero (P.values buf.old))) }
    ensures len { length buf.new ≡ length buf.old }
{
    for i in 0..h {
        let a = P::at(buf, i);
        let b = P::at(buf, i + h);
        let (low, high) = by.pair(a, b, Exponent(stride * i));
        P::put(buf, i, low);
        P::put(buf, i + h, high);
    }
}

// One stage: `stride` blocks of 2h places, each lent on.
pub fn stage<P: Places, S: Step<P>>(buf: &mut [P::Number], by: S, stride: usize, h: usize)
    requires buf_len { length buf.old ≡ P.width * (stride * (h + h)) }
    requires ready { (p : ℕ) → S.Ready by (held P.zero (P.values buf.old) p) }
    requires le_stride { (1 ≤ stride) × (stride * h ≤ S.reach by) }
    ensures after { P.values buf.new ≡ tabulate (stride * (h + h)) (step (S.wing by) (butterfly stride h) (held P.zero (P.values buf.old))) }
    ensures len { length buf.new ≡ length buf.old }
{
    // The numbers of a block. Cut out by hand: of a slice whose parts `chunks_exact_mut` lent on, only the length is known afterwards.
    let size = buf.len() / stride;
    for j in 0..stride {
        block(&mut buf[j * size..(j + 1) * size], by, stride, h);
    }
}

// Schedule 1, by columns: all n stages.
pub fn by_columns<P: Places, S: Step<P>>(buf: &mut [P::Number], by: S, n: usize)
    requires sizes { (1 ≤ n) × (n ≤ 12) × (length buf.old ≡ P.width * 2 ^ n) × (S.reach by ≡ 2 ^ (n - 1)) }
    requires grown { (p : ℕ) → S.Grown by 0 (held P.zero (P.values buf.old) p) }
    ensures after { P.values buf.new ≡ tabulate (2 ^ n) (schedule1 n P.Value (S.wing by) (held P.zero (P.values buf.old))) }
    ensures len { length buf.new ≡ length buf.old }
{
    for s in 0..n {
        column_stage(buf, by, n, s);
    }
}

// Stage s of schedule 1: 2^s columns of 2^(n-s) rows.
pub fn column_stage<P: Places, S: Step<P>>(buf: &mut [P::Number], by: S, n: usize, s: usize)
    requires sizes { (s < n) × (n ≤ 12) × (length buf.old ≡ P.width * 2 ^ n) × (S.reach by ≡ 2 ^ (n - 1)) }
    requires ready { (p : ℕ) → S.Ready by (held P.zero (P.values buf.old) p) }
    ensures after { P.values buf.new ≡ tabulate (2 ^ n) (step (S.wing by) (columns n s) (held P.zero (P.values buf.old))) }
    ensures len { length buf.new ≡ length buf.old }
{
    stage(buf, by, 1 << s, 1 << (n - 1 - s));
}

// Schedule 4, Thong's T1: stage t from 0 on pairs the places l and l + 2^t, in 2^(n-1-t) blocks.
pub fn by_thong<P: Places, S: Step<P>>(buf: &mut [P::Number], by: S, n: usize)
    requires sizes { (1 ≤ n) × (n ≤ 12) × (length buf.old ≡ P.width * 2 ^ n) × (S.reach by ≡ 2 ^ (n - 1)) }
    requires grown { (p : ℕ) → S.Grown by 0 (held P.zero (P.values buf.old) p) }
    ensures after { P.values buf.new ≡ tabulate (2 ^ n) (schedule4 n P.Value (S.wing by) (held P.zero (P.values buf.old))) }
    ensures len { length buf.new ≡ length buf.old }
{
    for t in 0..n {
        stage(buf, by, 1 << (n - 1 - t), 1 << t);
    }
}
