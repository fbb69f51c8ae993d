// What the calls in fixed point judge, in document 01's order. Nothing here writes.
#![tactic(auto)]

ghost use Rattle.std.specs.Prelude.{◌≡◌, length, IfOk};
ghost use Rattle.answer.specs.Choice.{answered};
ghost use Rattle.answer.specs.Lengths.{as_exponent};
ghost use Rattle.fixed_judgement.specs.Schedules.{number_of};
ghost use Rattle.fixed_judgement.specs.Verdicts.{points_log, in_range, bad_sample, scratch_fits, transform_verdict};

mod schedules;

use answer::Refusal;
pub use schedules::Schedule;

// "A sample part lies from -32,767 to 32,767."
const LEAST: i32 = -32767;

const MOST: i32 = 32767;

// The n of the N = 2^n points that `len` numbers are, for a permitted N.
#[tactic(auto, unfolding(crate::specs::Verdicts::points_log))]
pub fn points_log(len: usize) -> Option<usize>
    ensures { result ≡ as_exponent (points_log len) }
{
    if len % 2 != 0 {
        return None;
    }
    answer::log_of(len / 2)
}

// Whether a sample part lies in the range.
#[tactic(auto, unfolding(crate::specs::Verdicts::in_range))]
fn in_range(part: i32) -> bool
    ensures { result ≡ in_range part }
{
    LEAST <= part && part <= MOST
}

// Refusal 5: the index of the first number outside the range, or none. Over residues the bound is the modulus, so each carrier has its own. A
// function of its own in the code too: drawn into the transform, its loop kept a bound in memory.
#[inline(never)]
fn judge_samples(buf: &[i32]) -> Option<usize>
    ensures { result ≡ bad_sample buf.now }
{
    buf.iter().position(|part| !in_range(*part))
}

// Whether scratch is as long as the data, where it counts for the schedule: over residues it counts for two of them, so this stands there too.
#[tactic(auto, unfolding(crate::specs::Verdicts::scratch_fits))]
fn scratch_fits(schedule: Schedule, scratch: usize, len: usize) -> bool
    ensures { result ≡ scratch_fits (number_of schedule) scratch len }
{
    schedule != Schedule::Shuffle || scratch == len
}

// The transform: 7, 1, 6, 3, 4, 5; over residues the order has a modulus in it, so it stands there too. The schedule comes as C's number and is
// judged here. What passes is its schedule and its n, which the call takes apart in the same line.
#[tactic(auto, unfolding(crate::specs::Verdicts::transform_verdict))]
pub fn judge_transform(
    schedule: u32,
    buf: &[i32],
    table: &[i32],
    scratch: usize,
) -> Result<(Schedule, usize), Refusal>
    ensures answers { answered result ≡ transform_verdict schedule buf.now table.now scratch }
    ensures passes { IfOk result (λ w. (number_of w.0 ≡ schedule) × (w.1 ≡ points_log (length buf.now))) }
{
    let schedule = Schedule::try_from(schedule)?;
    let n = points_log(buf.len()).ok_or(Refusal::Length)?;
    if !scratch_fits(schedule, scratch, buf.len()) {
        return Err(Refusal::Scratch);
    }
    if table.len() != buf.len() / 2 {
        return Err(Refusal::TableLength);
    }
    if let Some(place) = tables::judge_table(table) {
        return Err(Refusal::Entry(place));
    }
    if let Some(place) = judge_samples(buf) {
        return Err(Refusal::Sample(place));
    }
    Ok((schedule, n))
}
