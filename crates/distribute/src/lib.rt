// The distributors (fc2.rs, fc3.rs, fc4.rs): rows or slabs of a set filled from others by a rotation and a map of the atoms.
#![tactic(auto)]

pub mod fc2;
pub mod fc3;
pub mod fc4;
pub mod slabs;
