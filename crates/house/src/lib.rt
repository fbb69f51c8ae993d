// The filling of a lent table from a setting.
#![tactic(auto)]

ghost use Rattle.std.specs.Prelude.{◌≡◌, ◌-◌, ◌%◌, ◌^◌, ◌≤◌, ◌<◌, length, IfOk};
ghost use Rattle.answer.specs.Choice.{answered};
ghost use Rattle.house_rows.specs.Powers.{powers, turns};
ghost use Rattle.house_rows.specs.Settings.{root_for};
ghost use Rattle.house.specs.Filling.{root_of_table, verdict, FillOutcome};

use answer::{Answer, Refusal};
pub use house_rows::{Setting, Yielded, setting_of, try_setting_of};
use residues::{Modulus, Residue};

// Fills a table with the powers of the setting's root for N, where the table has N/2 entries; in fixed point a table is copied from a constant.
// Refusals 2, 3 and 4; they change nothing.
pub fn fill(setting: Setting, table: &mut [u32]) -> Answer
    ensures { FillOutcome setting table.old result table.new }
{
    Answer::from(try_fill(setting, table))
}

// The same, with the refusal as it is.
fn try_fill(setting: Setting, table: &mut [u32]) -> Result<(), Refusal>
    ensures { FillOutcome setting table.old (answered result) table.new }
{
    let (x, m) = judge(setting, table.len())?;
    write_powers(table, x, m);
    Ok(())
}

// Refusals 2, 3 and 4 in this order, or the root and the modulus, for a table of `len` entries. It reads only.
#[tactic(auto, using(crate::proofs::Sizes::sized, crate::proofs::Sizes::few))]
fn judge(setting: Setting, len: usize) -> Result<(Residue, Modulus), Refusal>
    ensures answers { answered result ≡ verdict setting len }
    ensures passes { IfOk result (λ w. (w.0.0 ≡ root_of_table setting len)
        × (w.1.value ≡ setting.modulus)) }
{
    let m = Modulus::try_from(setting.modulus)?;
    let n = answer::table_log(len).ok_or(Refusal::TableLength)?;
    let x = root_for(setting, n);
    if !turns(x, n, m) {
        return Err(Refusal::Entry(len));
    }
    Ok((x, m))
}

// The setting's root for 2^n.
#[tactic(auto, unfolding(house_rows::specs::Settings::root_for))]
fn root_for(setting: Setting, n: usize) -> Residue
    requires some { 1 ≤ n }
    requires in_roots { n ≤ 12 }
    ensures { result.0 ≡ root_for setting n }
{
    setting.roots[n - 1]
}

// Whether x is below m and its power 2^(n-1) is m - 1. A root and its modulus stay two: only what passes this is a root.
#[tactic(auto, unfolding(house_rows::specs::Powers::turns))]
fn turns(x: Residue, n: usize, m: Modulus) -> bool
    requires { 1 ≤ n }
    ensures { result ≡ turns m.value x.0 (2 ^ (n - 1)) }
{
    x.0 < m.value && squared(x, n - 1, m).0 == m.value - 1
}

// x squared k times: x to the 2^k.
fn squared(x: Residue, k: usize, m: Modulus) -> Residue
    requires { x.0 < m.value }
    ensures { result.0 ≡ x.0 ^ 2 ^ k % m.value }
{
    let mut power = x;
    for _ in 0..k {
        power = m.times(power, power);
    }
    power
}

// The powers of x from 0 on.
fn write_powers(table: &mut [u32], x: Residue, m: Modulus)
    ensures { table.new ≡ powers m.value x.0 (length table.old) }
{
    let mut power = Residue(1);
    for entry in table.iter_mut() {
        *entry = power.0;
        power = m.times(power, x);
    }
}
