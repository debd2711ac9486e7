// Why a board cannot be made flat or evaluated.
use std::alloc::AllocError;
use thiserror::Error;

#[derive(Debug, Drop, Error)]
pub enum Fault {
    #[error("no memory")]
    Memory(#[from(alloc)] AllocError),
    #[error("a board file does not decode")]
    File,
    #[error("a wire of a flat board has no driver, or two")]
    Drivers,
    #[error("gates of a flat board wait for one another")]
    Ring,
    #[error("a board has too many places")]
    Size,
}
