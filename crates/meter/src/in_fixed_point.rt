// The calls in fixed point. Numbers as C gives them; where the other carrier has such a call, C has two names.
ghost use Rattle.fixed.specs.Outcomes.{TransformOutcome, ReverseOutcome};
ghost use Rattle.sine.specs.Filling.{FillOutcome};
ghost use Rattle.tables.specs.Acceptance.{AcceptOutcome};

use answer::Answer;

// Whether the table is accepted: 3, 4.
#[unsafe(no_mangle)]
pub extern "C" fn fdr_fixed_accept(table: &[i32]) -> Answer
    ensures { AcceptOutcome table.now result }
{
    fixed::accept(table)
}

// The transform of buf by the schedule: 7, 1, 6, 3, 4, 5.
#[unsafe(no_mangle)]
pub extern "C" fn fdr_fixed_transform(
    schedule: u32,
    buf: &mut [i32],
    table: &[i32],
    scratch: &mut [i32],
) -> Answer
    ensures { TransformOutcome schedule buf.old table.now scratch.old
        result buf.new scratch.new }
{
    fixed::transform(schedule, buf, table, scratch)
}

// buf with its points in reversed order: 1.
#[unsafe(no_mangle)]
pub extern "C" fn fdr_fixed_reverse(buf: &mut [i32]) -> Answer
    ensures { ReverseOutcome buf.old result buf.new }
{
    fixed::reverse(buf)
}

// A table filled with every (4,096/N)-th pair of the sine table: 3.
#[unsafe(no_mangle)]
pub extern "C" fn fdr_fixed_fill(table: &mut [i32]) -> Answer
    ensures { FillOutcome table.old result table.new }
{
    fixed::fill(table)
}
