// C names of audits, of drift reports of compact sets and of third order, and of read-outs.
#![tactic(auto)]

pub mod auditing;
pub mod drifts;
pub mod full;
