// A second evaluator of boards, which shares no code with the library: it makes a board flat, and evaluates each gate once
// its inputs are known.
#![tactic(auto)]

pub mod calls;
pub mod fault;
pub mod file;
pub mod flat;
pub mod flat_run;
pub mod flatten;
pub mod function;
mod joints;
mod settle;
pub mod values;
