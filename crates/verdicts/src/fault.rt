// Why the program gives up.
use std::alloc::AllocError;
use thiserror::Error;

#[derive(Debug, Drop, Error)]
pub enum Fault {
    #[error("no memory")]
    Memory(#[from(alloc)] AllocError),
    #[error("the data end early")]
    EndsEarly,
    #[error("the data go on after the last case")]
    GoesOn,
    #[error("a case names no base")]
    NoSuchBase,
}
