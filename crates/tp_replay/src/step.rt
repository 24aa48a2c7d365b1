// One record: what is done to the stream, and whether all that is told then is as recorded.
use crate::state;
use hub::answers::Answer;
use hub::tp::{viaductle_begin, viaductle_clear, viaductle_consume};
use replay::{argument, byte, input, recorded, same};
use tp_stream::LAST_NUMBER;

// What a record does: a stream begins, a segment comes, or the stream is cleared.
#[derive(Clone, Copy)]
pub(crate) enum Kind {
    Begin,
    Segment,
    Clear,
}

impl TryFrom<u8> for Kind {
    type Error = (); // a record with another byte does not agree, and no more is said

    fn try_from(code: u8) -> Result<Kind, ()> {
        match code {
            16 => Ok(Kind::Begin),
            17 => Ok(Kind::Segment),
            18 => Ok(Kind::Clear),
            _ => Err(()),
        }
    }
}

// Whether an answer is the recorded one: as in `sd_replay`.
fn told(record: &[u8], answer: Answer) -> bool {
    same(recorded(record), answer.number, answer.values)
}

// The part of a buffer that is lent to a stream: 16 bytes and its limit, as far as there are so many.
fn lent<'a>(words: &[u32], buffer: &'a mut [u8]) -> &'a mut [u8] {
    let size = (16 + state::word(words, 0) as usize).min(buffer.len());
    &mut buffer[..size]
}

// How many segments a stream has accepted after one that has this record, where before it had so many: one more if this one was.
fn counted(record: &[u8], before: u64) -> u64 {
    if byte(record, 2) != 0 || LAST_NUMBER as u64 <= before {
        return before;
    }
    before + 1
}

// One record replayed: its answer, the stream after it, and how many segments that has accepted, which are none where it begins or is cleared.
pub(crate) fn agrees(record: &[u8], words: &mut [u32], buffer: &mut [u8]) -> bool {
    let Ok(kind) = Kind::try_from(byte(record, 0)) else {
        return false;
    };
    let before = state::accepted(words);
    let (answer, accepted) = match kind {
        Kind::Begin => (viaductle_begin(words, argument(record, 0)), 0),
        Kind::Segment => {
            let lent = lent(words, buffer);
            (
                viaductle_consume(words, input(record), lent),
                counted(record, before),
            )
        }
        Kind::Clear => (viaductle_clear(words), 0),
    };
    let stream = state::agrees(record, words, lent(words, buffer));
    told(record, answer) && stream && state::accepted(words) == accepted
}
