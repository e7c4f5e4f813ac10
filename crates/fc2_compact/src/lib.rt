// Compact sets of second order (fc2.rs): the passes (transpose, average, row drift, on-site blocks) and the calls made of them.
#![tactic(auto)]

pub mod compact;
pub mod pairs;
pub mod rows;
