// The rules of joining that both ways to consume ask, `tp_stream` by value and `tp_lent` in lent words: each a function of what it is about, whatever
// holds the stream.
#![tactic(auto)]

mod malformed; // malformed.rt: answer 38, of one range
mod judging; // judging.rt: answers 31 to 34 of a segment's header, and the end that it sets
mod writing; // writing.rt: what is written into the buffer
mod taking; // taking.rt: answers 37 and 34 of taking

pub use judging::{end_after, judge_header, previous_end};
pub use malformed::bad_range;
pub use taking::{ready_of, whole};
pub use writing::{put_length, write};

// The highest payload limit.
pub const MAX_LIMIT: u32 = 65520;
