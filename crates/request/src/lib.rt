// What `dft` is asked and answers, over a byte slice.
#![tactic(auto)]

ghost use Rattle.std.specs.Prelude.{◌≡◌, length};
ghost use Rattle.reading.specs.Requests.{asked};
ghost use Rattle.request.specs.Outcomes.{Given, RequestOutcome};

use answer::Refusal;
use modular_judgement::Schedule;

// Memory of a size that serves every request, since there is no heap. Zeros, behind a contract that says only how many.
pub fn space<T: Copy + Default, const N: usize>() -> [T; N]
    ensures { N ≡ length result }
{
    [T::default(); N]
}

// The request of the three numbers at its head, and what stands from place p on. 7 and 1 come before the rest is read, so that it is known how
// much is read; the transform judges the numbers again.
fn asked(
    s: &[u8],
    m: u32,
    schedule: u32,
    n: usize,
    p: usize,
    results: &mut [u32; 4096],
) -> Result<usize, Refusal>
    ensures { Given (asked s.now m schedule n p) results.old result results.new }
{
    Schedule::try_from(schedule)?;
    answer::log_of(n).ok_or(Refusal::Length)?;
    let mut table = space::<u32, 2048>();
    let mut samples = space::<u32, 4096>();
    let mut scratch = space::<u32, 4096>();
    reading::within(s, m, schedule, n, p, &mut table, &mut samples, &mut scratch)?;
    results[..n].copy_from_slice(&samples[..n]);
    Ok(n)
}

// Answers the request, with how many results there are, or with its refusal. The results stand at the start of `results`, which has room for
// those of every request, since there is no heap; a refusal changes nothing there.
pub fn request(input: &[u8], results: &mut [u32; 4096]) -> Result<usize, Refusal>
    ensures { RequestOutcome input.now results.old result results.new }
{
    let mut head = [0; 3];
    let p = reading::numbers(input, 0, &mut head)?;
    // `as`, since a `usize` has no `From` of a `u32`; it is wider here.
    let [m, schedule, n] = head;
    asked(input, m, schedule, n as usize, p, results)
}
