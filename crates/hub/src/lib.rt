// What C and Rust programs call: the exported functions, over the proved ones, in numbers alone. include/viaductle.h declares them.
#![tactic(auto)]

pub mod answers; // answers.rt: answers as numbers
pub mod settings; // settings.rt: settings as a word of bits
pub mod tp; // tp.rt: the calls of a stream over words that the caller keeps
pub mod options; // options.rt: the options part and one option
pub mod entries; // entries.rt: one entry
pub mod payload; // payload.rt: a whole payload and the message that carries one
