// What agreed, counted by kind and by answer: a refusal at its number, a string's error and the kinds at places of their own.
use replay::{byte, count, recorded};

// How many places there are: 0 to 23 for answers, from 30 on for the kinds, from 40 on for the six errors of a string, and the last for all.
pub(crate) const PLACES: usize = 50;

// Places among the counts: numbers, since a record's own byte or number is a place too.
const KINDS: u8 = 30;

const STRINGS: u8 = 40;

const RECORDS: u8 = 49;

// The lines: a place, and what is counted there.
pub(crate) const LINES: [(u8, &str); 36] = [
    (KINDS + 1, "payloads"),
    (KINDS + 2, "messages with SD header"),
    (KINDS + 3, "options parts for the index"),
    (KINDS + 4, "entries"),
    (KINDS + 5, "options"),
    (KINDS + 6, "configuration strings"),
    (KINDS + 7, "lookups"),
    (KINDS + 8, "runs"),
    (0, "accepted"),
    (1, "refused with 1, unexpected end"),
    (2, "refused with 2, entries length too large"),
    (3, "refused with 3, entries length uneven"),
    (4, "refused with 4, options length too large"),
    (5, "refused with 5, payload too large"),
    (6, "refused with 6, length mismatch"),
    (7, "refused with 7, option length"),
    (8, "refused with 8, option length zero"),
    (STRINGS + 1, "refused with 9, missing terminator"),
    (STRINGS + 2, "refused with 9, item longer than what is left"),
    (STRINGS + 3, "refused with 9, data behind the terminator"),
    (STRINGS + 4, "refused with 9, empty key"),
    (STRINGS + 5, "refused with 9, invalid key byte"),
    (STRINGS + 6, "refused with 9, key of spaces only"),
    (10, "refused with 10, unknown option"),
    (11, "refused with 11, unknown entry"),
    (12, "refused with 12, run out of bounds"),
    (13, "refused with 13, index too large"),
    (14, "refused with 14, message id"),
    (15, "refused with 15, client"),
    (16, "refused with 16, session 0"),
    (17, "refused with 17, interface version"),
    (18, "refused with 18, message type"),
    (19, "refused with 19, return code"),
    (20, "refused with 20, nothing there"),
    (23, "refused with 23, transport protocol"),
    (RECORDS, "records that agree in all"),
];

// The place of one of the ten numbers from a place on.
fn within(from: u8, n: u64) -> u8 {
    from.saturating_add((n % 10) as u8)
}

// The place of a record's answer.
fn place_of(record: &[u8]) -> u8 {
    let said = recorded(record);
    if said.number == 9 {
        return within(STRINGS, said.values[0]);
    }
    (said.number % 256) as u8
}

// Counts a record that agreed.
pub(crate) fn add(record: &[u8], counts: &mut [u32]) {
    count(counts, within(KINDS, byte(record, 0) as u64));
    count(counts, place_of(record));
    count(counts, RECORDS);
}
