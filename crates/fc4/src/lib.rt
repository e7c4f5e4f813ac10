// Fourth order (fc4.rs).
#![tactic(auto)]

pub mod compact;
pub mod full;
pub mod group;
pub mod groups;
mod mean;
mod spread;
