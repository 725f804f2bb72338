// What a cab shows: columns of cells and a cursor.
#![tactic(auto)]

pub mod grid;
pub mod panel;
pub mod picture;
pub mod row;
pub mod ruled;
mod ruler;
pub mod stack;
mod store;
