// The sine table, and the filling of tables from it.
#![tactic(auto)]

mod constant;
mod filling;

pub use filling::fill;
