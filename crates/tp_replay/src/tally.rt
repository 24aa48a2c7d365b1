// What agreed, counted by its answer: at a refusal's number, and for the rest at places of their own.
use crate::step::Kind;
use replay::{byte, check, count};

// How many places there are, and those that are no refusal's number.
pub(crate) const PLACES: usize = 44;

// Places among the counts, as in `sd_replay`.
const ACCEPTED: u8 = 0;

const NOT_COMPLETE: u8 = 37;

const BEGUN: u8 = 40;

const CLEARED: u8 = 41;

const REPORTS: u8 = 42;

const RECORDS: u8 = 43;

// The lines: a place, and what is counted there.
pub(crate) const LINES: [(u8, &str); 10] = [
    (BEGUN, "streams begun"),
    (ACCEPTED, "segments accepted"),
    (30, "segments refused with 30, not a segment"),
    (31, "segments refused with 31, too big"),
    (32, "segments refused with 32, not aligned"),
    (33, "segments refused with 33, conflicting end"),
    (CLEARED, "streams cleared"),
    (REPORTS, "reports taken"),
    (NOT_COMPLETE, "reports refused with 37, not complete"),
    (RECORDS, "records that agree in all"),
];

// The place of a record's answer.
fn place_of(record: &[u8]) -> u8 {
    match Kind::try_from(byte(record, 0)) {
        Ok(Kind::Begin) => BEGUN,
        Ok(Kind::Clear) => CLEARED,
        _ => byte(record, 2),
    }
}

// The place of the answer to taking the message after it.
fn place_of_taking(record: &[u8]) -> u8 {
    if check(record, 4) == 0 {
        REPORTS
    } else {
        NOT_COMPLETE
    }
}

// Counts a record that agreed.
pub(crate) fn add(record: &[u8], counts: &mut [u32]) {
    count(counts, place_of(record));
    count(counts, place_of_taking(record));
    count(counts, RECORDS);
}
