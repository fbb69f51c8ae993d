// `dft`: reads a request from standard input and prints its answer. What lies behind the first 65,536 bytes changes nothing: the theorem
// `printed_begun` of `reading` says so of all that lies behind the first 30,736. There is no heap, so the memory is of one size.
#![tactic(auto)]

ghost use Rattle.std.specs.Prelude.{◌≡◌, length, take, OnOk, IfOk, IfSome};
ghost use Rattle.std.specs.Io.{ReadsAtMost};
ghost use Rattle.std.specs.Io.KnownBytes.{Appends};
ghost use Rattle.reading.specs.Requests.{printed};
ghost use Rattle.line.specs.Lines.{line};

use std::io;
use std::io::{Read, Write};

fn main(rt: HostRuntime) -> io::Result<()> {
    serve(&mut rt.stdin(), &mut rt.stdout())
}

// Reads a request and writes its answer. Of a reader whose bytes are known it writes the line that answers all of them.
fn serve<R: Read, W: Write>(from: &mut R, to: &mut W) -> io::Result<()>
    ensures { OnOk result (IfSome (R.remaining from.old) (λ xs. Appends (W.contents to.old) (W.contents to.new) (line (printed xs)))) }
{
    let mut input = request::space::<u8, 65536>();
    let n = read_full(from, &mut input)?;
    line::print(to, &input[..n])
}

// Reads until buf is full or the input ends, and returns how many bytes now stand at the start of buf: the input's first. By hand, since
// `read_exact` fails where the input is shorter, and `read_to_end` wants a heap.
fn read_full<R: Read>(from: &mut R, buf: &mut [u8]) -> io::Result<usize>
    ensures in_bounds { ReadsAtMost result buf.new }
    ensures bytes { IfSome (R.remaining from.old) (λ xs. IfOk result (λ n. take n buf.new ≡ take (length buf.old) xs)) }
{
    let mut done = 0;
    while done < buf.len() {
        let n = from.read(&mut buf[done..])?;
        if n == 0 {
            return Ok(done);
        }
        done += n;
    }
    Ok(done)
}
