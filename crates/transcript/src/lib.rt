// What the cab program prints, as a function of the board file and of the input.
#![tactic(auto)]

mod cab;
mod printing;
mod reading;
mod session;

pub use cab::{cab_transcript, takes_input};
pub use printing::{
    push_board_line, push_ended_line, push_kind_line, push_refused_line, push_step_line,
};
pub use reading::{CutLine, cut_line, parse_line};
pub use session::transcript;
