// Tables in fixed point: their rules and acceptance.
#![tactic(auto)]

mod accepting;
mod judging;

pub use accepting::accept;
pub use judging::judge_table;
