// One option: its kind, and its reading from the front of a slice. Its fields: crate sd_field.
#![tactic(auto)]

pub mod kinds;
pub mod reading;

// The settings of a reading.
#[derive(Clone, Copy)]
pub struct Settings {
    // An unknown option is accepted although it may not be discarded.
    pub discard_unknown_option: bool,
    // An option with an address is refused unless it carries TCP or UDP, and for multicast UDP.
    pub strict: bool,
}

// No setting is on.
pub const PLAIN: Settings = Settings {
    discard_unknown_option: false,
    strict: false,
};
