// The options part of a payload: all options read into a lent table of byte offsets, lookup by an option's number, and the cursors that hand
// options out. The table is 347 slots of the caller's.
#![tactic(auto)]

mod cursor;
mod lookup;
mod permission;
mod reading;
mod slots;

pub use cursor::{OptionCursor, RunCursor};
pub use lookup::{Found, look_up, option_at};
pub use reading::{read_index, read_options};
pub use slots::clear_slots;

// As many slots as options can be: 1,388 bytes of options of four bytes.
pub const SLOTS: usize = 347;

// The options length that a payload can have at most.
pub const MAX_OPTIONS_LEN: usize = 1388;

// An option's place in the count, and its byte offset: two structs, so that none is taken for the other, as the rules' paper has it.
#[derive(Clone, Copy)]
pub struct Ordinal(pub usize);

// An option's byte offset in the options part.
#[derive(Clone, Copy)]
pub struct Offset(pub usize);
