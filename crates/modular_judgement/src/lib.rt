// What the calls over residues judge, in document 01's order. Nothing here writes. The parameters are the calls' own, as C gives them; what is
// answered with a table says each time that it is the one that was lent, since no definition of that is shorter. A tuple is answered, which the call
// takes apart in the same line.
#![tactic(auto)]

ghost use Rattle.std.specs.Prelude.{◌≡◌, ◌/◌, ◌≤◌, length, Some, IfOk};
ghost use Rattle.answer.specs.Choice.{answered};
ghost use Rattle.answer.specs.Lengths.{exponent_of};
ghost use Rattle.modular_judgement.specs.Schedules.{number_of, single_number};
ghost use Rattle.modular_judgement.specs.Verdicts.{scratch_fits, lent_verdict, rest_verdict, transform_verdict, stage_verdict, inverse_verdict};

mod schedules;

use answer::Refusal;
use residues::{Modulus, Roots};
pub use schedules::{Schedule, Single};

// The table by 3 and 4, and the samples by 5.
#[tactic(auto, unfolding(crate::specs::Verdicts::lent_verdict))]
fn judge_lent<'a>(buf: &[u32], m: Modulus, table: &'a [u32]) -> Result<Roots<'a>, Refusal>
    requires in_bounds { (1 ≤ length buf.now / 2) × (length buf.now ≤ 4096) }
    ensures answers { answered result ≡ lent_verdict m.value table.now buf.now }
    ensures passes { IfOk result (λ roots. (roots.table.now ≡ table.now) × (roots.modulus.value ≡ m.value)) }
{
    if table.len() != buf.len() / 2 {
        return Err(Refusal::TableLength);
    }
    if let Some(place) = residue_tables::judge_table(table, m) {
        return Err(Refusal::Entry(place));
    }
    if let Some(place) = residue_tables::judge_samples(buf, m.value) {
        return Err(Refusal::Sample(place));
    }
    Ok(Roots { table, modulus: m })
}

// Whether scratch is as long as the data, where it counts for the schedule: not where it does in fixed point, so this stands here too.
#[tactic(auto, unfolding(crate::specs::Verdicts::scratch_fits))]
fn scratch_fits(schedule: Schedule, scratch: usize, len: usize) -> bool
    ensures { result ≡ scratch_fits (number_of schedule) scratch len }
{
    match schedule {
        Schedule::Shuffle | Schedule::Pease => scratch == len,
        Schedule::Columns | Schedule::Halves | Schedule::Thong => true,
    }
}

// From the modulus on: 2, 6, 3, 4, 5; else the table with its modulus.
#[tactic(auto, unfolding(crate::specs::Verdicts::rest_verdict))]
fn judge_rest<'a>(
    schedule: Schedule,
    buf: &[u32],
    m: u32,
    table: &'a [u32],
    scratch: usize,
) -> Result<Roots<'a>, Refusal>
    requires { (1 ≤ length buf.now / 2) × (length buf.now ≤ 4096) }
    ensures answers { answered result ≡ rest_verdict (number_of schedule) buf.now m table.now
        scratch }
    ensures passes { IfOk result (λ roots. (roots.table.now ≡ table.now) × (roots.modulus.value ≡ m)) }
{
    let modulus = Modulus::try_from(m)?;
    if !scratch_fits(schedule, scratch, buf.len()) {
        return Err(Refusal::Scratch);
    }
    judge_lent(buf, modulus, table)
}

// The whole transform: 7, 1, and the rest; else the schedule, the n and the table to work with. In fixed point the rest is another.
#[tactic(auto, using(crate::proofs::Tests::long, crate::proofs::Tests::short), unfolding(crate::specs::Verdicts::transform_verdict))]
pub fn judge_transform<'a>(
    schedule: u32,
    buf: &[u32],
    m: u32,
    table: &'a [u32],
    scratch: usize,
) -> Result<(Schedule, usize, Roots<'a>), Refusal>
    ensures answers { answered result ≡ transform_verdict schedule buf.now m table.now scratch }
    ensures passes { IfOk result (λ w. (number_of w.0 ≡ schedule)
        × (Some w.1 ≡ exponent_of (length buf.now))
        × (w.2.table.now ≡ table.now)
        × (w.2.modulus.value ≡ m)) }
{
    let schedule = Schedule::try_from(schedule)?;
    let n = answer::log_of(buf.len()).ok_or(Refusal::Length)?;
    let roots = judge_rest(schedule, buf, m, table, scratch)?;
    Ok((schedule, n, roots))
}

// A single stage: 7, 1, 8, and the rest; else the schedule, the n and the table to work with. `as`, since a `usize` has no `From` of a `u32`, and is
// wider.
#[tactic(auto, using(crate::proofs::Tests::long, crate::proofs::Tests::short), unfolding(crate::specs::Verdicts::stage_verdict))]
pub fn judge_stage<'a>(
    schedule: u32,
    s: u32,
    buf: &[u32],
    m: u32,
    table: &'a [u32],
    scratch: usize,
) -> Result<(Single, usize, Roots<'a>), Refusal>
    ensures answers { answered result ≡ stage_verdict schedule s buf.now m table.now scratch }
    ensures passes { IfOk result (λ w. (single_number w.0 ≡ schedule)
        × (Some w.1 ≡ exponent_of (length buf.now))
        × (w.2.table.now ≡ table.now)
        × (w.2.modulus.value ≡ m)) }
{
    let single = Single::try_from(schedule)?;
    let n = answer::log_of(buf.len()).ok_or(Refusal::Length)?;
    if n <= s as usize {
        return Err(Refusal::Stage);
    }
    let roots = judge_rest(Schedule::from(single), buf, m, table, scratch)?;
    Ok((single, n, roots))
}

// The inverse: 1, 2, and what is lent; else the n and the table to work with.
#[tactic(auto, using(crate::proofs::Tests::long, crate::proofs::Tests::short), unfolding(crate::specs::Verdicts::inverse_verdict))]
pub fn judge_inverse<'a>(
    buf: &[u32],
    m: u32,
    table: &'a [u32],
) -> Result<(usize, Roots<'a>), Refusal>
    ensures answers { answered result ≡ inverse_verdict buf.now m table.now }
    ensures passes { IfOk result (λ w. (Some w.0 ≡ exponent_of (length buf.now))
        × (w.1.table.now ≡ table.now)
        × (w.1.modulus.value ≡ m)) }
{
    let n = answer::log_of(buf.len()).ok_or(Refusal::Length)?;
    let modulus = Modulus::try_from(m)?;
    let roots = judge_lent(buf, modulus, table)?;
    Ok((n, roots))
}
