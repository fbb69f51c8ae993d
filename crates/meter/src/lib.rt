// The public calls as C sees them (include/fandrute.h). Each function hands on what it is given and carries the call's own promise.
#![tactic(auto)]

mod in_fixed_point;
mod over_residues;
