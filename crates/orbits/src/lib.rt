// Blocks that trade with their counterparts, and groups of blocks: the laws that turn loops over blocks into closed forms are in specs/.
#![tactic(auto)]

pub mod half_shifts;
