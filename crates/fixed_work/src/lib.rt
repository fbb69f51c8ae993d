// The work of the transform in fixed point, on what was judged.
#![tactic(auto)]

ghost use Rattle.std.specs.Prelude.{true, ◌≡◌, ◌+◌, ◌^◌, ◌≤◌, length};
ghost use Rattle.points.specs.declared.Point.{Point};
ghost use Rattle.points.specs.Interleaved.{point, interleaved};
ghost use Rattle.points.specs.Rounding.{half_up};
ghost use Rattle.points.specs.Steps.{rounded};
ghost use Rattle.points.specs.Growth.{grow};
ghost use Rattle.scan_stages.specs.Scans.{Scanned};
ghost use Rattle.fixed_judgement.specs.Schedules.{number_of};
ghost use Rattle.fixed_judgement.specs.Verdicts.{scratch_fits};
ghost use Rattle.fixed_work.specs.Works.{by_schedule, cleared};

use counting::Multiples;
use fixed_judgement::Schedule;
use scan_stages::{Points, Rounded};

// All n stages of the schedule: one of three, over points. The table is a `Rounded` from here on: `Scanned`, of the table with its scan, says what
// that type asks; n stands beside it, since it is the data's as well. The `match` is where the schedule's number becomes its stages: over residues it
// has five.
pub fn do_schedule(
    schedule: Schedule,
    buf: &mut [i32],
    table: &[i32],
    n: usize,
    scratch: &mut [i32],
)
    requires scanned { Scanned (grow 0) table.now buf.old }
    requires le_n { (1 ≤ n) × (n ≤ 12) × (length buf.old ≡ 2 ^ n + 2 ^ n) × (length table.now ≡ 2 ^ n) }
    requires scratch_len { scratch_fits (number_of schedule) (length scratch.old) (length buf.old) ≡ true }
    ensures buf_after { buf.new ≡ interleaved (2 ^ n)
        (by_schedule (number_of schedule) n Point (rounded half_up (point table.now)) (point buf.old)) }
    ensures scratch_after { scratch.new ≡ cleared (number_of schedule) scratch.old }
{
    let by = Rounded { table };
    match schedule {
        Schedule::Columns => stages::by_columns::<Points, _>(buf, by, n),
        Schedule::Shuffle => stages::by_turns::<Points, _, Multiples>(buf, scratch, by, n),
        Schedule::Halves => stages::by_halves::<Points, _>(buf, by, 1),
    }
}
