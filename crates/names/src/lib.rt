// A list of names, checked one by one, and the report on it.
#![tactic(auto)]

mod entry;
mod list;
pub mod report;
pub mod settings;
