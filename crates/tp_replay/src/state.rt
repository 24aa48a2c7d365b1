// Whether a stream is as a record says: complete, its end, its ranges as a set, and its report; and how many segments it has accepted. The
// first of its words hold the limit, how many ranges are held, whether an end is known, and the end.
use hub::tp::{viaductle_complete, viaductle_count, viaductle_range, viaductle_take};
use replay::check;
use tp_range::MAX_RANGES;

// The word at a place; 0 past the end. (`replay::byte` is the same one line for bytes.)
pub(crate) fn word(words: &[u32], place: usize) -> u32 {
    words.get(place).copied().unwrap_or(0)
}

// Whether a range is held.
fn holds(words: &[u32], start: u32, end: u32) -> bool {
    let answer = viaductle_range(words, start);
    let [first, last, ..] = answer.values;
    answer.number == 0 && start as u64 == first && end as u64 == last
}

// Whether the ranges are the recorded ones. As many are held, and those recorded differ from each other, so it is enough that each is held.
fn ranges_agree(record: &[u8], words: &[u32]) -> bool {
    let count = word(words, 1);
    check(record, 3) == count
        && count <= MAX_RANGES as u32
        && (0..count as u8).all(|i| holds(
            words,
            check(record, 7 + 2 * i),
            check(record, 8 + 2 * i),
        ))
}

// The first bytes of a buffer, none where it has not so many.
fn front(buffer: &[u8], len: u64) -> &[u8] {
    buffer.get(..len as usize).unwrap_or(&[])
}

// Whether taking answers as recorded, and the report is the recorded one.
fn report_agrees(record: &[u8], words: &[u32], buffer: &mut [u8]) -> bool {
    let taken = viaductle_take(words, buffer);
    let [length, ..] = taken.values;
    if check(record, 4) as u64 != taken.number {
        return false;
    }
    if taken.number != 0 {
        return check(record, 5) == 0 && check(record, 6) == 0;
    }
    check(record, 5) as u64 == length
        && check(record, 6) == replay::add_bytes(0, front(buffer, length))
}

// Whether the stream is complete where the record says so.
fn complete_agrees(record: &[u8], words: &[u32]) -> bool {
    let answer = viaductle_complete(words);
    answer.number == 0 && check(record, 0) as u64 == answer.values[0]
}

// How many segments the stream has accepted.
pub(crate) fn accepted(words: &[u32]) -> u64 {
    viaductle_count(words).values[0]
}

// Whether all that is recorded of the stream is so. The report is taken whatever else agrees.
pub(crate) fn agrees(record: &[u8], words: &[u32], buffer: &mut [u8]) -> bool {
    let report = report_agrees(record, words, buffer);
    report
        && complete_agrees(record, words)
        && check(record, 1) == word(words, 2)
        && check(record, 2) == word(words, 3)
        && ranges_agree(record, words)
}
