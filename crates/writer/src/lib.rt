// The writer of numbers in groups of seven bits.
#![tactic(auto)]

ghost use Rattle.std.specs.Prelude.{◌≡◌, length};
ghost use Rattle.groups.specs.Groups.{bytes_of};
ghost use Rattle.writer.specs.Outcomes.{PutOutcome};

// There is no room for all of the number.
#[derive(Clone, Copy, Debug, PartialEq, Eq)]
pub struct NoRoom;

// How many bytes v takes. A `while`, since the number of its steps is what it counts.
fn size_of(v: u32) -> usize
    ensures { result ≡ length (bytes_of v) }
{
    let mut rest = v;
    let mut size = 1;
    while 128 <= rest {
        rest /= 128;
        size += 1;
    }
    size
}

// Writes v from place p of out on, and answers the place behind it: a place and not a shorter slice, since the next number goes there, and a
// caller knows by it how much was written. Without room for all of it nothing is written.
pub fn put_number(out: &mut [u8], p: usize, v: u32) -> Result<usize, NoRoom>
    ensures { PutOutcome v p out.old result out.new }
{
    let end = p.checked_add(size_of(v)).ok_or(NoRoom)?;
    if out.len() < end {
        return Err(NoRoom);
    }
    // By place, since of a part that was lent to an iterator only the length is known afterwards. Each group fits a byte, so `as` loses nothing.
    let last = end - 1;
    let mut rest = v;
    for q in p..last {
        out[q] = (rest % 128 + 128) as u8;
        rest /= 128;
    }
    out[last] = rest as u8;
    Ok(end)
}
