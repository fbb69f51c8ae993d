// What `dft` prints: "number and place and, on success, the N results in buffer order, with single spaces and a newline". The line is
// made from its end, so that no digit is counted before it is written: what writes answers the
// place where it begins.
#![tactic(auto)]

ghost use Rattle.std.specs.Prelude.{◌≡◌, ◌∷◌, ◌+◌, ◌*◌, ◌≤◌, length, drop, OnOk};
ghost use Rattle.std.specs.Io.KnownBytes.{Appends};
ghost use Rattle.reading.specs.Requests.{printed};
ghost use Rattle.line.specs.Lines.{decimal, spaced, line};
ghost use Rattle.line.specs.Outcomes.{Stands, LineOutcome};

use answer::Answer;
use std::io;
use std::io::Write;

// Answers the request as `dft` prints it: the line stands at the end of out, from the place that is answered on. Out has room for the longest line,
// since there is no heap.
pub fn respond(input: &[u8], out: &mut [u8; 86058]) -> usize
    ensures { LineOutcome input.now out.old result out.new }
{
    let mut results = request::space::<u32, 4096>();
    let reply = request::request(input, &mut results);
    put_line(out, Answer::from(reply), &results[..reply.unwrap_or(0)])
}

// Writes the line that answers the request, at once.
pub fn print<W: Write>(to: &mut W, input: &[u8]) -> io::Result<()>
    ensures { OnOk result (Appends (W.contents to.old) (W.contents to.new) (line (printed input.now))) }
{
    let mut out = request::space::<u8, 86058>();
    let start = respond(input, &mut out);
    write_from(to, &out, start)
}

// Writes what stands from a place on: the place that `respond` answers.
pub fn write_from<W: Write>(to: &mut W, text: &[u8], start: usize) -> io::Result<()>
    requires { start ≤ length text.now }
    ensures { OnOk result (Appends (W.contents to.old) (W.contents to.new) (drop start text.now)) }
{
    to.write_all(&text[start..])
}

// Writes the whole line at the end of out. `as`, since a `u64` has no `From` of a `usize`; it is as wide.
pub fn put_line(out: &mut [u8], answer: Answer, results: &[u32]) -> usize
    requires { 42 + 21 * length results.now ≤ length out.old }
    ensures { Stands (line (record { answer = answer; results = results.now })) (length out.old) out.old
        result out.new }
{
    let last = out.len() - 1;
    out[last] = 10;
    let behind = put_results(out, last, results);
    let place = put_spaced(out, behind, answer.place as u64);
    put_decimal(out, place, u64::from(answer.number))
}

// Writes the results in front of place p, each with a space in front of it. A place and not a shorter slice, since the answer is the place.
fn put_results(out: &mut [u8], p: usize, results: &[u32]) -> usize
    requires { (41 + 21 * length results.now ≤ p) × (p ≤ length out.old) }
    ensures { Stands (spaced results.now) p out.old result out.new }
{
    let mut q = p;
    for &result in results.iter().rev() {
        q = put_spaced(out, q, u64::from(result));
    }
    q
}

// Writes v in decimal in front of place p, with a space in front of it.
fn put_spaced(out: &mut [u8], p: usize, v: u64) -> usize
    requires { (21 ≤ p) × (p ≤ length out.old) }
    ensures { Stands (32 ∷ decimal v) p out.old result out.new }
{
    let q = put_decimal(out, p, v) - 1;
    out[q] = 32;
    q
}

// Writes v in decimal in front of place p. By hand, since the line stands at the end of what is lent: `Display` writes from the start on.
// A `while`, since the number of digits is known once they are written. A digit fits a byte, so `as` loses nothing.
fn put_decimal(out: &mut [u8], p: usize, v: u64) -> usize
    requires { (20 ≤ p) × (p ≤ length out.old) }
    ensures { Stands (decimal v) p out.old result out.new }
{
    let mut rest = v;
    let mut q = p;
    while 10 <= rest {
        q -= 1;
        out[q] = (48 + rest % 10) as u8;
        rest /= 10;
    }
    q -= 1;
    out[q] = (48 + rest) as u8;
    q
}
