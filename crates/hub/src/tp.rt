// A stream of TP segments over words that the caller keeps, as exported to C.
ghost use Rattle.std.specs.Prelude.{◌≡◌};
ghost use Rattle.hub.specs.Tp.{Begins, Consumes, completes, Takes, Clears, counts, ranges};

use crate::answers::{Answer, accepted, one_value, passed, range_values, told};
use refusal::Refusal;
use tp_segment::HEADER_LEN;
use tp_words::{WORDS, put, stream_of};

// A stream begun in these words: 38 where they are too few, then 36, and the stream of limit 0.
pub fn viaductle_begin(words: &mut [u32], limit: u32) -> Answer
    ensures { Begins words.old limit result words.new }
{
    if words.len() < WORDS {
        return Answer::from(Refusal::MalformedState);
    }
    let step = tp_stream::begin(limit);
    put(words, step.after);
    passed(step.answer)
}

// One segment comes; a refusal leaves words and buffer as they were.
pub fn viaductle_consume(words: &mut [u32], segment: &[u8], buffer: &mut [u8]) -> Answer
    ensures { Consumes words.old segment.now buffer.old result words.new buffer.new }
{
    passed(tp_lent::consume(words, segment, buffer))
}

// 1 where the stream is complete, else 0.
pub fn viaductle_complete(words: &[u32]) -> Answer
    ensures { result ≡ completes words.now }
{
    accepted(&[u64::from(tp_lent::complete(words))])
}

// Taking the report: 38, 37, 34, or its length field is written and how long it is.
pub fn viaductle_take(words: &[u32], buffer: &mut [u8]) -> Answer
    ensures { Takes words.now buffer.old result buffer.new }
{
    // not by `map`: a function for one sum would be no plainer
    match tp_lent::take(words, buffer) {
        Ok(end) => accepted(&[(HEADER_LEN + end) as u64]),
        Err(refusal) => Answer::from(refusal),
    }
}

// The limit is kept, ranges, end and count are forgotten: 38 where the words are unfit, and they are left alone.
pub fn viaductle_clear(words: &mut [u32]) -> Answer
    ensures { Clears words.old result words.new }
{
    passed(tp_lent::clear(words))
}

// How many segments were accepted since the stream was begun or cleared: 38, or their count.
pub fn viaductle_count(words: &[u32]) -> Answer
    ensures { result ≡ counts words.now }
{
    told(tp_stream::accepted(stream_of(words)).map(one_value))
}

// Of the ranges that begin at `from` or behind it the one that begins first: 38, 20, or where it begins and ends, and its number.
pub fn viaductle_range(words: &[u32], from: u32) -> Answer
    ensures { result ≡ ranges words.now from }
{
    told(tp_stream::range_from(stream_of(words), from).map(range_values))
}
