// A line of codes: why the editor refuses, and whether a policy and a panel take a string.
#![tactic(auto)]

pub mod check;
pub mod refusal;
