// The eight-bit codes of TIS 1566: the class of one code, its display level, and the verdict on two neighbours.
#![tactic(auto)]

pub mod classes;
pub mod hex;
pub mod levels;
pub mod verdicts;
