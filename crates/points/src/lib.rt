// Points: complex numbers in fixed point. The step on two points, and points in a lent buffer.
#![tactic(auto)]

ghost use Rattle.std.specs.Prelude.{◌≡◌, ◌+◌, ◌*◌, ◌^◌, ◌≤◌, ◌<◌, nat_abs, ◌+ℤ◌, ◌*ℤ◌, length};
ghost use Rattle.points.specs.Interleaved.{point, put};
ghost use Rattle.points.specs.Rounding.{half_up};
ghost use Rattle.points.specs.Steps.{plus, minus, times, turned, each_part, Sized, Turn};

// A complex number in two parts.
#[derive(Clone, Copy, PartialEq, Eq, Debug)]
pub struct Point {
    pub re: i32,
    pub im: i32,
}

// The step of a stage on a pair of places that hold a and b, where t is the table's pair at the exponent. Sizes are asked of callers, here and
// below: a number of 32 bits is a point's part only while it is small, and which bound it keeps changes from stage to stage. A turn is
// a point that is read out of the lent table at every step: as a type of its own it would be made anew each time.
pub fn pair(t: Point, a: Point, b: Point) -> (Point, Point)
    requires turn { Turn t }
    requires sized { Sized (2 ^ 22) a × Sized (2 ^ 22) b }
    ensures { (result.0 ≡ each_part (half_up 2) (plus a b)) × (result.1 ≡ each_part (half_up 32768) (turned t a b)) }
{
    (a.plus(b), t.twist(a, b))
}

impl Point {
    // (a + b)/2, where this is a and the other b.
    fn plus(self, other: Point) -> Point
        requires { Sized (2 ^ 22) self × Sized (2 ^ 22) other }
        ensures { result ≡ each_part (half_up 2) (plus self other) }
    {
        Point {
            re: half_sum(self.re, other.re),
            im: half_sum(self.im, other.im),
        }
    }

    // T(a - b)/32,768, where this is T. Each part is worked out whole and rounded once.
    fn twist(self, a: Point, b: Point) -> Point
        requires turn { Turn self }
        requires sized { Sized (2 ^ 22) a × Sized (2 ^ 22) b }
        ensures { result ≡ each_part (half_up 32768) (turned self a b) }
    {
        let d = a.minus(b);
        Point {
            re: reduced(self.real(d)),
            im: reduced(self.imaginary(d)),
        }
    }

    // a - b, where this is a and the other b.
    fn minus(self, other: Point) -> Point
        requires { Sized (2 ^ 22) self × Sized (2 ^ 22) other }
        ensures value { result ≡ minus self other }
        ensures sized { Sized (2 ^ 23) result }
    {
        Point {
            re: self.re - other.re,
            im: self.im - other.im,
        }
    }

    // The real part of T d, where this is T.
    pub fn real(self, d: Point) -> i64
        requires turn { Turn self }
        requires sized { Sized (2 ^ 23) d }
        ensures value { result ≡ (times self d).re }
        ensures size { nat_abs result ≤ 23171 * 2 ^ 23 }
    {
        product(self.re, d.re) - product(self.im, d.im)
    }

    // The imaginary part of T d, where this is T.
    pub fn imaginary(self, d: Point) -> i64
        requires turn { Turn self }
        requires sized { Sized (2 ^ 23) d }
        ensures value { result ≡ (times self d).im }
        ensures size { nat_abs result ≤ 23171 * 2 ^ 23 }
    {
        product(self.re, d.im) + product(self.im, d.re)
    }
}

// c d, whole.
fn product(c: i32, d: i32) -> i64
    ensures { result ≡ c *ℤ d }
{
    i64::from(c) * i64::from(d)
}

// A part of (a + b)/2.
fn half_sum(a: i32, b: i32) -> i32
    requires { (nat_abs a ≤ 2 ^ 22) × (nat_abs b ≤ 2 ^ 22) }
    ensures { result ≡ half_up 2 (a +ℤ b) }
{
    (a + b + 1) >> 1
}

// z/32,768. The quotient fits, so `as` loses nothing; a `try_from` would have an error that cannot come.
fn reduced(z: i64) -> i32
    requires { nat_abs z ≤ 23171 * 2 ^ 23 }
    ensures { result ≡ half_up 32768 z }
{
    ((z + 16384) >> 15) as i32
}

// Point p of a buffer. Points lie in it as C lends them, two numbers each.
pub fn point_at(buf: &[i32], p: usize) -> Point
    requires { p + p + 1 < length buf.now }
    ensures { result ≡ point buf.now p }
{
    let at = p + p;
    Point {
        re: buf[at],
        im: buf[at + 1],
    }
}

// Point p of a buffer becomes z.
pub fn put_point(buf: &mut [i32], p: usize, z: Point)
    requires { p + p + 1 < length buf.old }
    ensures { buf.new ≡ put buf.old p z }
{
    let re = z.re;
    let im = z.im;
    let at = p + p;
    buf[at] = re;
    buf[at + 1] = im;
}
