// The entries and the options of a payload on standard output, in lines for a person. As in `print`, no contract says what is written: it is held to
// the file `stdout` of `sd_show`.
#![tactic(auto)]

pub mod entries; // entries.rt: the entries with their runs
pub mod options; // options.rt: one option, the options of a run, and all of them
