// The rules of a table in fixed point, pair by pair.
#![tactic(auto)]

ghost use Rattle.std.specs.Prelude.{◌≡◌, ◌*◌, ◌^◌, ◌≤◌, pos, nat_abs, ◌-ℤ◌, ◌*ℤ◌};
ghost use Rattle.points.specs.Steps.{Turn};
ghost use Rattle.rules.specs.Pairs.{starts, sized, near, follows};

use points::Point;

// Whether it is (16,384, 0).
#[tactic(auto, unfolding(crate::specs::Pairs::starts))]
pub fn starts(p: Point) -> bool
    ensures { result ≡ starts p }
{
    p == Point { re: 16384, im: 0 }
}

// Whether the imaginary part is at least 0 and the sizes of both parts sum to at most 23,171. Where the first holds, the sum is below 2^32.
#[tactic(auto, unfolding(crate::specs::Pairs::sized))]
pub fn sized(p: Point) -> bool
    ensures { result ≡ sized p }
{
    p.im >= 0 && p.re.unsigned_abs() + p.im.unsigned_abs() <= 23171
}

// Whether p times x differs from 16,384 q by at most 32,768 in each part. Turns are points here, as in `points`.
#[tactic(auto, unfolding(crate::specs::Pairs::follows))]
pub fn follows(x: Point, p: Point, q: Point) -> bool
    requires { Turn x × Turn p × Turn q }
    ensures { result ≡ follows x p q }
{
    near(p.real(x), q.re) && near(p.imaginary(x), q.im)
}

// Whether z differs from 16,384 e by at most 32,768.
fn near(z: i64, e: i32) -> bool
    requires { nat_abs z ≤ 23171 * 2 ^ 23 }
    ensures { result ≡ near (z -ℤ pos 16384 *ℤ e) }
{
    (z - 16384 * i64::from(e)).unsigned_abs() <= 32768
}
