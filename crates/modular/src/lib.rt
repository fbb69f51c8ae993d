// The public calls over residues. Each tests everything that it is lent, in document 01's order, and only then works. Schedules, stages and
// moduli are numbers here, one parameter each, since so C gives them; the judgement makes types of schedules and moduli, and a stage
// counts, so that it stays a number.
#![tactic(auto)]

mod accepting;
mod inverting;
mod staging;
mod transforming;

pub use accepting::accept;
pub use inverting::{inverse, reverse};
pub use staging::stage;
pub use transforming::{transform, try_transform};
