// A request as it is read: several numbers, one behind the other; the table, the samples, and their transform. m and schedule are numbers
// throughout, since the transform judges them; that the schedule and the length were judged before is a clause.
#![tactic(auto)]

ghost use Rattle.std.specs.Prelude.{◌≡◌, true, ◌/◌, ◌≤◌, length, take};
ghost use Rattle.std.proofs.lemmas.List.Edits.{sets};
ghost use Rattle.modular_judgement.specs.Verdicts.{offers, permitted_length};
ghost use Rattle.reading.specs.Requests.{many_at, values_at, with_table, with_head, Prints};

use answer::Refusal;
use groups::Fault;

// Fills out with the numbers of s from place p on, one behind the other, and answers the place behind the last. A fault ends it; what stands
// before it is filled in.
pub fn numbers(s: &[u8], p: usize, out: &mut [u32]) -> Result<usize, Fault>
    ensures value { result ≡ many_at (length out.old) s.now p }
    ensures out_after { out.new ≡ sets out.old 0 (values_at (length out.old) s.now p) }
{
    let mut next = p;
    for slot in out.iter_mut() {
        let (value, behind) = groups::number_at(s, next)?;
        *slot = value;
        next = behind;
    }
    Ok(next)
}

// Reads the samples from place q on, sees that nothing is behind them, and transforms them.
fn with_table(
    s: &[u8],
    m: u32,
    schedule: u32,
    table: &[u32],
    q: usize,
    samples: &mut [u32],
    scratch: &mut [u32],
) -> Result<(), Refusal>
    requires schedule_value { (offers schedule ≡ true) × (permitted_length (length samples.old) ≡ true) }
    requires table_len { (length table.now ≡ length samples.old / 2) × (length scratch.old ≡ length samples.old) }
    ensures { Prints (with_table s.now m schedule (length samples.old) table.now q) samples.new result }
{
    let end = numbers(s, q, samples)?;
    if end < s.len() {
        return Err(Refusal::Request(end));
    }
    modular::try_transform(schedule, samples, m, table, scratch)
}

// Reads the table from place p on, and goes on to the samples.
fn with_head(
    s: &[u8],
    m: u32,
    schedule: u32,
    p: usize,
    table: &mut [u32],
    samples: &mut [u32],
    scratch: &mut [u32],
) -> Result<(), Refusal>
    requires schedule_value { (offers schedule ≡ true) × (permitted_length (length samples.old) ≡ true) }
    requires table_len { (length table.old ≡ length samples.old / 2) × (length scratch.old ≡ length samples.old) }
    ensures { Prints (with_head s.now m schedule (length samples.old) p) samples.new result }
{
    let q = numbers(s, p, table)?;
    with_table(s, m, schedule, table, q, samples, scratch)
}

// The same with memory for the longest request, of which n numbers are used. One parameter each: a struct of a head and of three lent
// buffers would be taken apart again at once. n becomes the length of
// what the transform judges.
pub fn within(
    s: &[u8],
    m: u32,
    schedule: u32,
    n: usize,
    p: usize,
    table: &mut [u32],
    samples: &mut [u32],
    scratch: &mut [u32],
) -> Result<(), Refusal>
    requires schedule_value { (offers schedule ≡ true) × (permitted_length n ≡ true) }
    requires n_in_bounds { (n / 2 ≤ length table.old) × (n ≤ length samples.old) × (n ≤ length scratch.old) }
    ensures { Prints (with_head s.now m schedule n p) (take n samples.new) result }
{
    with_head(
        s,
        m,
        schedule,
        p,
        &mut table[..n / 2],
        &mut samples[..n],
        &mut scratch[..n],
    )
}
