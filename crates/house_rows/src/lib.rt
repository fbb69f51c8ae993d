// The house rows, and the settings that they yield.
#![tactic(auto)]

ghost use Rattle.std.specs.Prelude.{◌≡◌};
ghost use Rattle.answer.specs.Choice.{answered};
ghost use Rattle.house_rows.specs.Settings.{SettingOutcome, setting_or_zeros};

use answer::{Answer, Refusal};
use residues::Residue;

// "The modulus together with its twelve roots, one per length": the root for 2^n stands at place n - 1.
// C's struct: any numbers can come in it, and `house` judges them.
#[repr(C)]
#[derive(Clone, Copy, Debug, PartialEq, Eq)]
pub struct Setting {
    pub modulus: u32,
    pub roots: [Residue; 12],
}

// Rows 0 to 2, with the roots for 2, 4, .., 4096: the first is m - 1, and each squared is the one before it.
const ROWS: [Setting; 3] = [
    Setting {
        modulus: 998244353,
        roots: [
            Residue(998244352),
            Residue(911660635),
            Residue(372528824),
            Residue(929031873),
            Residue(452798380),
            Residue(922799308),
            Residue(781712469),
            Residue(476477967),
            Residue(166035806),
            Residue(258648936),
            Residue(584193783),
            Residue(63912897),
        ],
    },
    Setting {
        modulus: 469762049,
        roots: [
            Residue(469762048),
            Residue(450151958),
            Residue(129701348),
            Residue(426037461),
            Residue(244709223),
            Residue(210853138),
            Residue(189158148),
            Residue(338628632),
            Residue(25153357),
            Residue(110059487),
            Residue(165447688),
            Residue(244412522),
        ],
    },
    Setting {
        modulus: 167772161,
        roots: [
            Residue(167772160),
            Residue(65249968),
            Residue(71493608),
            Residue(116878283),
            Residue(17334830),
            Residue(54112143),
            Residue(370529),
            Residue(26238939),
            Residue(57844624),
            Residue(134785078),
            Residue(83629286),
            Residue(150794572),
        ],
    },
];

// The setting of a house row: 9 for another row, and then a setting of all zeros.
pub fn setting_of(row: u32) -> Yielded
    ensures { SettingOutcome row result.answer result.setting }
{
    Yielded::from(try_setting_of(row))
}

// The same, with the refusal as it is. The row is C's number, judged here. Row by row: of a constant that is indexed by a variable the compiler makes
// a copy at each call.
pub fn try_setting_of(row: u32) -> Result<Setting, Refusal>
    ensures { SettingOutcome row (answered result) (setting_or_zeros result) }
{
    match row {
        0 => Ok(ROWS[0]),
        1 => Ok(ROWS[1]),
        2 => Ok(ROWS[2]),
        _ => Err(Refusal::Row),
    }
}

// What a row yields, as C sees it: the answer with the setting, which is all zeros where there is none.
#[repr(C)]
#[derive(Clone, Copy, Debug, PartialEq, Eq)]
pub struct Yielded {
    pub answer: Answer,
    pub setting: Setting,
}

impl From<Result<Setting, Refusal>> for Yielded {
    ghost from_gives = { λ outcome yielded. (yielded.answer ≡ answered outcome)
        × (yielded.setting ≡ setting_or_zeros outcome) };

    fn from(outcome: Result<Setting, Refusal>) -> Yielded {
        let zeros = Setting {
            modulus: 0,
            roots: [Residue(0); 12],
        };
        Yielded {
            answer: Answer::from(outcome),
            setting: outcome.unwrap_or(zeros),
        }
    }
}
