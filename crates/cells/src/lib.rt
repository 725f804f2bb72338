// The division of a string of codes into runs and cells, and the value of one cell.
#![tactic(auto)]

pub mod cell;
pub mod contents;
pub mod division;
pub mod reading;
pub mod runs;
