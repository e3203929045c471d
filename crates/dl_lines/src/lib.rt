//! Lines read from a source in bounded room.
//!
//! A `LineReader` takes its room when it is made and none afterwards. `LineReader::next_line` answers the next line, or that it is too long,
//! or how the lines ended: at the end of the input, at a limit of bytes, or at a failed read. It reads only while no whole line is ahead,
//! so before a limit or a failure all whole lines of what was read are answered. `specs/Lines` says what the lines of some bytes are, and
//! `specs/Reading` what a call does. `laws` adds the calls up: what they answered are the lines of the bytes that were taken.
#![tactic(auto)]

mod fill;
mod laws;
mod next;
mod reader;

pub use laws::{
    accounts_begin, accounts_go_on, calls_run_out, lines_are_the_bytes, lines_come_first,
};
pub use next::{Ending, Next};
pub use reader::{LONGEST_LINE, LineReader, MOST_BYTES};
