// This crate has no code: the bench values marked P are a theorem in specs/. What a call can show of them is run too, in tests/meter/values.c.
#![tactic(auto)]
