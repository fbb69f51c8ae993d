// The schedules without the judgement, as the benchmark calls them, and nobody else: what `modular_work` and `fixed_work` ask for, the
// caller owes.
#![tactic(auto)]

ghost use Rattle.std.specs.Prelude.{true, ◌≡◌, ◌+◌, ◌-◌, ◌^◌, ◌≤◌, length};
ghost use Rattle.answer.specs.Lists.{at, tabulate};
ghost use Rattle.fixed_judgement.specs.Verdicts as fixed-verdicts;
ghost use Rattle.fixed_work.specs.Works as fixed-works;
ghost use Rattle.modular_judgement.specs.Verdicts.{scratch_fits};
ghost use Rattle.modular_work.specs.Works.{by_schedule, cleared};
ghost use Rattle.points.specs.declared.Point.{Point};
ghost use Rattle.points.specs.Growth.{grow};
ghost use Rattle.points.specs.Interleaved.{point, interleaved};
ghost use Rattle.points.specs.Rounding.{half_up};
ghost use Rattle.points.specs.Steps.{rounded};
ghost use Rattle.residues.specs.Judgement.{Judged};
ghost use Rattle.scan_stages.specs.Scans.{Scanned};

use residues::{Modulus, Roots};

// All n stages of the schedule, over residues. The parameters are C's: a number for the schedule, a table beside its modulus; so a clause says of
// them what `Modulus` and `Roots` say of themselves. In fixed point there is no modulus, so each carrier has a kernel.
#[unsafe(no_mangle)]
pub extern "C" fn fdr_modular_kernel(
    schedule: u32,
    buf: &mut [u32],
    m: u32,
    table: &[u32],
    n: usize,
    scratch: &mut [u32],
)
    requires judged { Judged m table.now buf.old }
    requires le_n { (1 ≤ n) × (length buf.old ≡ 2 ^ n) × (length table.now ≡ 2 ^ (n - 1)) }
    requires le_schedule { (1 ≤ schedule) × (schedule ≤ 5) × (scratch_fits schedule (length scratch.old) (length buf.old) ≡ true) }
    ensures buf_after { buf.new ≡ tabulate (length buf.old)
        (by_schedule schedule n m (length table.now) (at table.now) (at buf.old)) }
    ensures scratch_after { scratch.new ≡ cleared schedule scratch.old }
{
    let schedule = modular_judgement::Schedule::try_from(schedule).unwrap();
    let modulus = Modulus { value: m };
    modular_work::do_schedule(schedule, buf, Roots { table, modulus }, n, scratch);
}

// All n stages of the schedule, in fixed point; the schedule is C's number here too.
#[unsafe(no_mangle)]
pub extern "C" fn fdr_fixed_kernel(
    schedule: u32,
    buf: &mut [i32],
    table: &[i32],
    n: usize,
    scratch: &mut [i32],
)
    requires scanned { Scanned (grow 0) table.now buf.old }
    requires le_n { (1 ≤ n) × (n ≤ 12) × (length buf.old ≡ 2 ^ n + 2 ^ n) × (length table.now ≡ 2 ^ n) }
    requires le_schedule { (1 ≤ schedule) × (schedule ≤ 3) × (fixed-verdicts.scratch_fits schedule (length scratch.old) (length buf.old) ≡ true) }
    ensures buf_after { buf.new ≡ interleaved (2 ^ n)
        (fixed-works.by_schedule schedule n Point (rounded half_up (point table.now)) (point buf.old)) }
    ensures scratch_after { scratch.new ≡ fixed-works.cleared schedule scratch.old }
{
    let schedule = fixed_judgement::Schedule::try_from(schedule).unwrap();
    fixed_work::do_schedule(schedule, buf, table, n, scratch);
}
