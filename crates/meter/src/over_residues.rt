// The calls over residues, and house tables. Numbers, and a table beside its modulus, as C gives them; where the other carrier has such a call, C
// has two names.
ghost use Rattle.house.specs.Filling.{FillOutcome};
ghost use Rattle.house_rows.specs.Settings.{SettingOutcome};
ghost use Rattle.modular.specs.Outcomes.{AcceptOutcome, TransformOutcome, StageOutcome, InverseOutcome, ReverseOutcome};

use answer::Answer;
use house::{Setting, Yielded};

// Whether the table is accepted modulo m: 2, 3, 4.
#[unsafe(no_mangle)]
pub extern "C" fn fdr_modular_accept(m: u32, table: &[u32]) -> Answer
    ensures { AcceptOutcome m table.now result }
{
    modular::accept(m, table)
}

// The transform of buf by the schedule: 7, 1, 2, 6, 3, 4, 5.
#[unsafe(no_mangle)]
pub extern "C" fn fdr_modular_transform(
    schedule: u32,
    buf: &mut [u32],
    m: u32,
    table: &[u32],
    scratch: &mut [u32],
) -> Answer
    ensures { TransformOutcome schedule buf.old m table.now scratch.old
        result buf.new scratch.new }
{
    modular::transform(schedule, buf, m, table, scratch)
}

// A stage of the schedule done to buf: 7, 1, 8, 2, 6, 3, 4, 5.
#[unsafe(no_mangle)]
pub extern "C" fn fdr_modular_stage(
    schedule: u32,
    stage: u32,
    buf: &mut [u32],
    m: u32,
    table: &[u32],
    scratch: &mut [u32],
) -> Answer
    ensures { StageOutcome schedule stage buf.old m table.now scratch.old
        result buf.new scratch.new }
{
    modular::stage(schedule, stage, buf, m, table, scratch)
}

// The samples of which buf holds the sums: 1, 2, 3, 4, 5.
#[unsafe(no_mangle)]
pub extern "C" fn fdr_modular_inverse(buf: &mut [u32], m: u32, table: &[u32]) -> Answer
    ensures { InverseOutcome buf.old m table.now result buf.new }
{
    modular::inverse(buf, m, table)
}

// buf with its places in reversed order: 1.
#[unsafe(no_mangle)]
pub extern "C" fn fdr_modular_reverse(buf: &mut [u32]) -> Answer
    ensures { ReverseOutcome buf.old result buf.new }
{
    modular::reverse(buf)
}

// The setting of a house row: 9.
#[unsafe(no_mangle)]
pub extern "C" fn fdr_house_row(row: u32) -> Yielded
    ensures { SettingOutcome row result.answer result.setting }
{
    house::setting_of(row)
}

// A table filled from a setting: 2, 3, 4.
#[unsafe(no_mangle)]
pub extern "C" fn fdr_modular_fill(setting: Setting, table: &mut [u32]) -> Answer
    ensures { FillOutcome setting table.old result table.new }
{
    house::fill(setting, table)
}
