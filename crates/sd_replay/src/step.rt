// One record: what is read by the exported functions, and whether all that is told of it is as recorded.
use crate::entries::{add_entry, sum_of_entries};
use crate::options::{sum_of_option, sum_of_options, sum_of_run, sum_of_table};
use hub::answers::Answer;
use hub::entries::viaductle_next_entry;
use hub::options::{viaductle_index, viaductle_lookup, viaductle_read_option, viaductle_string};
use hub::payload::{Places, viaductle_parts, viaductle_read, viaductle_read_message};
use refusal::Numbers;
use replay::{argument, byte, check, input, recorded, same};

// What a record's input is, as its byte 0 says.
#[derive(Clone, Copy)]
pub(crate) enum Kind {
    Payload,
    Message,
    Index,
    Entry,
    Option,
    String,
    Lookup,
    Run,
}

impl TryFrom<u8> for Kind {
    type Error = (); // a record with another byte does not agree, and no more is said

    fn try_from(code: u8) -> Result<Kind, ()> {
        match code {
            1 => Ok(Kind::Payload),
            2 => Ok(Kind::Message),
            3 => Ok(Kind::Index),
            4 => Ok(Kind::Entry),
            5 => Ok(Kind::Option),
            6 => Ok(Kind::String),
            7 => Ok(Kind::Lookup),
            8 => Ok(Kind::Run),
            _ => Err(()),
        }
    }
}

// The settings of a record, as the word that C tells them by.
fn settings(record: &[u8]) -> u32 {
    byte(record, 1) as u32
}

// Whether an answer is the recorded one. (`tp_replay` has the same line: crate `replay` knows no answers of C's.)
fn told(record: &[u8], answer: Answer) -> bool {
    same(recorded(record), answer.number, answer.values)
}

// The part of some bytes that starts at a place and has so many; none where they do not lie there.
fn part(s: &[u8], at: u64, len: u64) -> &[u8] {
    let rest = s.get(at as usize..).unwrap_or(&[]);
    rest.get(..len as usize).unwrap_or(&[])
}

// Whether a payload's parts and the table are as recorded.
fn parts_agree(record: &[u8], payload: &[u8], places: Places, table: &[u16]) -> bool {
    let entries = part(payload, places.entries_at, places.entries_len);
    let options = part(payload, places.options_at, places.options_len);
    check(record, 0) as u64 == places.entries_at
        && check(record, 1) as u64 == places.entries_len
        && check(record, 2) == sum_of_table(table)
        && check(record, 3) == sum_of_entries(entries)
        && check(record, 4) == sum_of_options(options, settings(record))
}

// A payload that was read, with its parts and the table where it was accepted.
fn payload_agrees(record: &[u8], payload: &[u8], answer: Answer, table: &[u16]) -> bool {
    told(record, answer)
        && (answer.number != 0
            || parts_agree(record, payload, viaductle_parts(payload, answer), table))
}

// A payload.
fn read_payload_agrees(record: &[u8], table: &mut [u16]) -> bool {
    let payload = input(record);
    let answer = viaductle_read(payload, table, settings(record));
    payload_agrees(record, payload, answer, table)
}

// A message with SD header; its payload stands behind the sixteen bytes of that.
fn read_message_agrees(record: &[u8], table: &mut [u16]) -> bool {
    let message = input(record);
    let answer = viaductle_read_message(message, table, settings(record));
    payload_agrees(record, message.get(16..).unwrap_or(&[]), answer, table)
}

// The index alone.
fn index_agrees(record: &[u8], table: &mut [u16]) -> bool {
    let options = input(record);
    let answer = viaductle_index(options, table, settings(record));
    told(record, answer)
        && (answer.number != 0
            || check(record, 0) == sum_of_table(table)
                && check(record, 1) == sum_of_options(options, settings(record)))
}

// One entry, as the cursor reads it.
fn entry_agrees(record: &[u8]) -> bool {
    let entry = viaductle_next_entry(input(record), 0);
    told(record, entry.answer) && check(record, 0) == add_entry(0, entry)
}

// One option, with its fields.
fn option_agrees(record: &[u8]) -> bool {
    let option = viaductle_read_option(input(record), settings(record));
    told(record, option.answer) && check(record, 0) == sum_of_option(option)
}

// How many options an options part has that the index accepts with no setting on; 0 where it does not, and the look-up is then among none.
fn count_of(options: &[u8], table: &mut [u16]) -> usize {
    let answer = viaductle_index(options, table, 0);
    if answer.number != 0 {
        return 0;
    }
    answer.values[0] as usize
}

// A lookup.
fn lookup_agrees(record: &[u8], table: &mut [u16]) -> bool {
    let options = input(record);
    let count = count_of(options, table);
    let ordinal = argument(record, 0) as usize;
    told(record, viaductle_lookup(options, table, count, ordinal))
}

// An argument of one byte.
fn low_byte(record: &[u8], place: u8) -> u8 {
    (argument(record, place) % 256) as u8
}

// A run.
fn run_agrees(record: &[u8], table: &mut [u16]) -> bool {
    let options = input(record);
    let count = count_of(options, table);
    let said = sum_of_run(
        options,
        table,
        count,
        low_byte(record, 0),
        low_byte(record, 1),
    );
    let accepted = Numbers::new(0, &[said.options]);
    same(recorded(record), accepted.number, accepted.values) && check(record, 0) == said.sum
}

// Whether all that is recorded is so.
pub(crate) fn agrees(record: &[u8], table: &mut [u16]) -> bool {
    let Ok(kind) = Kind::try_from(byte(record, 0)) else {
        return false;
    };
    match kind {
        Kind::Payload => read_payload_agrees(record, table),
        Kind::Message => read_message_agrees(record, table),
        Kind::Index => index_agrees(record, table),
        Kind::Entry => entry_agrees(record),
        Kind::Option => option_agrees(record),
        Kind::String => told(record, viaductle_string(input(record))),
        Kind::Lookup => lookup_agrees(record, table),
        Kind::Run => run_agrees(record, table),
    }
}
