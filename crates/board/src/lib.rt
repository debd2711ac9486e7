// Judging board files: a file becomes a board, or is refused by a number and a place.
#![tactic(auto)]

mod board;
mod bodies;
mod current;
mod figures;
mod judging;
mod layout;
mod lent;
mod modules;
mod occurrences;
mod records;
mod tables;
mod wires;

pub use board::{Board, seal};
pub use figures::Figures;
pub use judging::judge;
pub use layout::ModuleRecords;
pub use lent::Tables;
pub use rules::Refusal;
pub use tables::Judged;
