// Board files by chance, the same ones from the same seed, which the judge has to accept unless they are made too deep.
#![tactic(auto)]

pub mod dice;
pub mod generator;
mod made;
mod maker;
mod piece;
mod shape;
mod writer;
