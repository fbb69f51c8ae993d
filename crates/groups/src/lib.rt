// Numbers below 2^32 "in groups of seven bits, low group first, top bit set on all but the last; shortest form only".
#![tactic(auto)]

ghost use Rattle.std.specs.Prelude.{◌≡◌, ◌<◌};
ghost use Rattle.answer.specs.declared.Refusal.TheVariants.{Request};
ghost use Rattle.groups.specs.Groups.{overlong, number_at};

use answer::Refusal;

// What is wrong with a number: the place that its refusal names.
#[derive(Clone, Copy, Debug, PartialEq, Eq)]
pub struct Fault {
    pub place: usize,
}

// A request with such a number cannot be read.
impl From<Fault> for Refusal {
    ghost from_gives = { λ fault refusal. refusal ≡ Request fault.place };

    fn from(fault: Fault) -> Refusal {
        Refusal::Request(fault.place)
    }
}

// Whether a number whose last is byte i is not in shortest form: that byte is a 0 behind others.
fn overlong(i: usize, byte: u64) -> bool
    ensures { result ≡ overlong i byte }
{
    byte == 0 && 0 < i
}

// The number at place p of s, and the place behind it. A place and not the rest of s, since a fault is named by its place.
pub fn number_at(s: &[u8], p: usize) -> Result<(u32, usize), Fault>
    ensures { result ≡ number_at s.now p }
{
    let Some(rest) = s.get(p..) else {
        return Err(Fault { place: s.len() });
    };
    // Those that the number may have. Where none is its last, either the input ends inside it or it goes on behind the fifth.
    let bytes = &rest[..rest.len().min(5)];
    let mut low = 0;
    let mut unit = 1;
    for (i, &byte) in bytes.iter().enumerate() {
        let byte = u64::from(byte);
        if byte < 128 {
            if overlong(i, byte) {
                return Err(Fault { place: p });
            }
            let Ok(value) = u32::try_from(low + unit * byte) else {
                return Err(Fault { place: p });
            };
            return Ok((value, p + i + 1));
        }
        low += unit * (byte - 128);
        unit *= 128;
    }
    let place = if bytes.len() < 5 { s.len() } else { p };
    Err(Fault { place })
}
