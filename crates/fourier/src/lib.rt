// This crate has no code: the schedules stand in specs/, the theorems about them there and in proofs/.
#![tactic(auto)]
