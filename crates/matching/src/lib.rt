// The matching of atoms (cells.rs), and one that finds a match if there is one (document 02, A.6): greedy slots, the search for a chain of
// exchanges, and in specs/ the groups of positions that rule a match out.
#![tactic(auto)]

pub mod cells;
pub mod chains;
pub mod finding;
mod rest;
pub mod slots;
