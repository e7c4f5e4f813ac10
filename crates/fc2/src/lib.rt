// The symmetrizer of full sets of second order (fc2.rs).
#![tactic(auto)]

mod columns;
pub mod full;
