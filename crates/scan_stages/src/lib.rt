// Points in a lent buffer, and the step on a pair of them.
#![tactic(auto)]

ghost use Rattle.std.specs.Prelude.{◌/◌, ◌^◌, ◌<◌, pos, length};
ghost use Rattle.points.specs.Growth.{grow};
ghost use Rattle.points.specs.Interleaved.{point, points};
ghost use Rattle.points.specs.Rounding.{half_up};
ghost use Rattle.points.specs.Steps.{rounded, Sized, Turns};
ghost use Rattle.scan_stages.specs.Buffers.{origin, point_places};
ghost use Rattle.scan_stages.specs.Sizes.{half_fits, ready, behind, keeps};

use points::Point;
use residues::Exponent;
use stages::{Places, Step};

// Points in a buffer of numbers, two a place, as C lends them.
pub struct Points;

impl Places for Points {
    type Number = i32;

    type Value = Point;

    ghost width = { 2 };

    ghost zero = { origin };

    ghost values = { points };

    ghost blank = { pos 0 };

    fn count(buf: &[i32]) -> usize {
        buf.len() / 2
    }

    fn at(buf: &[i32], p: usize) -> Point {
        points::point_at(buf, p)
    }

    fn put(buf: &mut [i32], p: usize, v: Point) {
        points::put_point(buf, p, v);
    }

    // Here and over residues: the trait knows what a cleared number is (`blank`) in ghost code alone.
    #[tactic(auto, using(stages::specs::Laws::zeros_replicate))]
    fn clear(buf: &mut [i32]) {
        buf.fill(0);
    }

    ghost laws = { point_places };
}

// The step that rounds each part once, with its table: a lent one, which nothing compares or prints, so it derives no more than this.
#[derive(Clone, Copy)]
pub struct Rounded<'a> {
    pub table: &'a [i32],
    ghost turns: { Turns (point table.now) (length table.now / 2) },
    ghost fits: { length table.now < 2 ^ 63 },
}

impl<'a> Step<Points> for Rounded<'a> {
    ghost wing = { λ s. rounded half_up (point s.table.now) };

    ghost reach = { λ s. length s.table.now / 2 };

    ghost Ready = { λ s z. Sized (2 ^ 22) z };

    ghost Grown = { λ s k z. Sized (grow k) z };

    fn pair(self, a: Point, b: Point, e: Exponent) -> (Point, Point) {
        points::pair(points::point_at(self.table, e.0), a, b)
    }

    ghost laws = { record {
      fits = λ s. half_fits s.fits;
      ready = λ s k z h g. ready k h g;
      behind = λ s k. behind k;
      keeps = λ s k x e a b h f g. keeps (point s.table.now) k x e (s.turns.each e h) f g;
    } };
}
