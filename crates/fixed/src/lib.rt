// The public calls in fixed point. Each tests everything that it is lent, in document 01's order, and only then works. Schedules are numbers
// here, and each lent buffer a parameter, since so C gives them; the judgement makes an enum of the number.
#![tactic(auto)]

mod reversing;
mod transforming;

pub use reversing::reverse;
pub use sine::fill;
pub use tables::accept;
pub use transforming::transform;
