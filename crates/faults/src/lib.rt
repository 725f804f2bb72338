// What every refusal tells.
#![tactic(auto)]

pub mod fault;
pub mod layer;
