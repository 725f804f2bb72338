// Which code may stand directly after which.
#![tactic(auto)]

pub mod level;
pub mod policy;
pub mod tag;
