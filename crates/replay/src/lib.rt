// Recorded answers of the Rust crate (compare/FORMAT.md) for the programs that replay them: the parts of a record, its check sums, and the
// counting of what agreed. A record is its bytes after the length; what stands past its end reads as 0.
#![tactic(auto)]

mod counts;
mod file;
mod record;
mod sum;
#[cfg(test)]
mod tests;

pub use counts::count;
pub use file::{Judge, next_record, open_first, records, records_behind, replay_all};
pub use record::{argument, byte, check, input, number, recorded, same};
pub use sum::{add_byte, add_bytes, add_number};
