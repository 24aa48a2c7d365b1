// A whole service discovery payload, and the message with its SD header: every refusal in the rules' order, the offsets of the options in a
// lent table, and the parts of the payload as parts of the caller's bytes.
#![tactic(auto)]

mod entries;
mod header;
mod parts;
mod reading;
mod sizes;

pub use parts::{entries_part, options_part};
pub use reading::{
    EXPLICIT_INITIAL_DATA_CONTROL, REBOOT, SdHeaderFlags, SdPayload, UNICAST, read_message,
    read_payload,
};
pub use sizes::judge_sizes;
