//! Relations that the contracts of all crates use: between the result of a call and a definition, and between a device
//! before and after a call. The crate has no code: `specs/` has the relations, and `proofs/` their laws.
#![tactic(auto)]
