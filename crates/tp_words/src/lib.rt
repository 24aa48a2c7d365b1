// A stream's state as words that the caller keeps: the limit, how many ranges are held, whether an end is known (0 or 1), the end, how many
// segments were accepted, and then for each range that can be held its start, its end and its number.
#![tactic(auto)]

ghost use Rattle.std.specs.Prelude.{◌≡◌, ◌<◌, ◌≤◌, ◌++◌, take};
ghost use Rattle.tp_machine.specs.Machine.{most};
ghost use Rattle.tp_words.specs.Words.{range_at, end_of, unfit as unfit_of, outside as outside_of, held_in, stream_of, known, flat, words_of, put as put_of};

use tp_machine::TpRange;
use tp_range::{MAX_RANGES, UNUSED};
use tp_stream::TpStream;

// The words before the ranges, those of one range, and as many as a state has.
pub const FRONT_WORDS: usize = 5;

pub const RANGE_WORDS: usize = 3;

pub const WORDS: usize = FRONT_WORDS + RANGE_WORDS * MAX_RANGES;

// The words of a state.
pub type Words = [u32; WORDS];

// The end that two words tell. (No `From`, here and below: a word is told by its place, and not by its type.)
pub fn end_of(known: u32, end: u32) -> Option<u32>
    ensures { result ≡ end_of known end }
{
    (known != 0).then_some(end)
}

// Whether an end is known, as a word.
pub fn known_of(end: Option<u32>) -> u32
    ensures { result ≡ known end }
{
    u32::from(end.is_some())
}

// A stream that is malformed.
fn outside() -> TpStream
    ensures { result ≡ outside_of }
{
    TpStream {
        limit: 0,
        ranges: [UNUSED; MAX_RANGES],
        count: 0,
        end: Some(1),
        accepted: 0,
    }
}

// The range at place i, behind the first five words. `tp_lent` has the same: see there.
fn range_at(words: &Words, i: usize) -> TpRange
    requires { i < most }
    ensures { result ≡ range_at words.now i }
{
    let at = FRONT_WORDS + RANGE_WORDS * i;
    TpRange {
        start: words[at],
        end: words[at + 1],
        number: words[at + 2],
    }
}

// The stream that these words hold.
fn held_in(words: &Words) -> TpStream
    ensures { result ≡ held_in words.now }
{
    let mut ranges = [UNUSED; MAX_RANGES];
    // by place, which is no longer than pieces of three words
    for (i, range) in ranges.iter_mut().enumerate() {
        *range = range_at(words, i);
    }
    TpStream {
        limit: words[0],
        ranges,
        count: words[1] as usize,
        end: end_of(words[2], words[3]),
        accepted: words[4],
    }
}

// Whether words are too few, or do not tell whether an end is known.
pub fn unfit(words: &[u32]) -> bool
    ensures { result ≡ unfit_of words.now }
{
    words.len() < WORDS || 1 < words[2]
}

// The stream that any words hold: a malformed one where they are unfit.
pub fn stream_of(words: &[u32]) -> TpStream
    ensures { result ≡ stream_of words.now }
{
    match words.first_chunk() {
        Some(first) if !unfit(first) => held_in(first),
        _ => outside(),
    }
}

// The ranges into the words behind the first five.
fn put_ranges(words: &mut Words, ranges: &[TpRange; MAX_RANGES])
    ensures { words.new ≡ take 5 words.old ++ flat ranges.now }
{
    // by place: of what an iterator over pieces of the words wrote nothing is known
    for (i, r) in ranges.iter().enumerate() {
        let at = FRONT_WORDS + RANGE_WORDS * i;
        words[at] = r.start;
        words[at + 1] = r.end;
        words[at + 2] = r.number;
    }
}

// A stream into the words of a state.
fn put_in(words: &mut Words, stream: TpStream)
    requires { stream.count ≤ most }
    ensures { words.new ≡ words_of stream }
{
    words[..FRONT_WORDS].copy_from_slice(&[
        stream.limit,
        stream.count as u32,
        known_of(stream.end),
        stream.end.unwrap_or(0),
        stream.accepted,
    ]);
    put_ranges(words, &stream.ranges);
}

// A stream into the words that were lent. They are left alone where they are too few, or the stream counts more ranges than may be held (no
// accepted call comes to one).
pub fn put(words: &mut [u32], stream: TpStream)
    ensures { words.new ≡ put_of words.old stream }
{
    if MAX_RANGES < stream.count {
        return;
    }
    if let Some(first) = words.first_chunk_mut() {
        put_in(first, stream);
    }
}
