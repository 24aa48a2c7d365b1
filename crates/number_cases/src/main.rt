// Runs the cases of arrival numbers through the public functions and the exported ones, and prints each on a line: what came, the answer to it, and
// then how many segments were accepted and each range with its number. The file stdout holds what the rules say; where an exported function told
// something else, the line says so.
#![tactic(auto)]

use case_lines::{Exported, Judged};
use hub::tp::{viaductle_clear, viaductle_count, viaductle_range};
use print::out;
use refusal::Numbers;
use tp_machine::TpRange;
use tp_pieces::{Piece, ROOM, WORDS, last, more};
use tp_range::MAX_RANGES;
use tp_stream::{LAST_NUMBER, TpStream};

// A stream, and the exported one.
type Streams = tp_pieces::Streams<ROOM, WORDS, ROOM>;

// How many segments were accepted, here and by the exported function.
fn count(rt: &impl Print, streams: &Streams) {
    let told = viaductle_count(&streams.words);
    match tp_stream::accepted(streams.here) {
        Ok(n) => {
            let said = Numbers::new(0, &[n as u64]);
            out(rt, format_args!("count {n}{}", Exported { said, told }));
        }
        Err(refusal) => {
            let said = Numbers::from(refusal);
            out(rt, format_args!("count {}", Judged { said, told }));
        }
    }
}

// The range that begins first at `from` or behind it, here and by the exported function; answers from where to ask again, if there is one.
fn next(rt: &impl Print, streams: &Streams, from: u32) -> Option<u32> {
    let told = viaductle_range(&streams.words, from);
    match tp_stream::range_from(streams.here, from) {
        Ok(TpRange { start, end, number }) => {
            let said = Numbers::new(0, &[start as u64, end as u64, number as u64]);
            out(
                rt,
                format_args!("; {start} to {end} has {number}{}", Exported { said, told }),
            );
            end.checked_add(1)
        }
        Err(refusal) => {
            let said = Numbers::from(refusal);
            out(rt, Exported { said, told });
            None
        }
    }
}

// The count and all ranges as they begin.
fn numbers(rt: &impl Print, streams: &Streams) {
    count(rt, streams);
    let mut from = Some(0);
    for _ in 0..=MAX_RANGES {
        from = match from {
            Some(from) => next(rt, streams, from),
            None => break,
        };
    }
}

// The same, and the line ends.
fn told(rt: &impl Print, streams: &Streams) {
    numbers(rt, streams);
    out(rt, "\n");
}

// The same, the report is taken, and the stream, and the exported one, is cleared.
fn cleared(rt: &impl Print, streams: &mut Streams) {
    numbers(rt, streams);
    out(rt, "; ");
    streams.taken(rt);
    streams.here = tp_stream::clear(streams.here);
    let said = Numbers::new(0, &[]);
    let told = viaductle_clear(&mut streams.words);
    out(rt, format_args!("cleared{}; ", Exported { said, told }));
}

// Segments come, and then the numbers are told.
fn come(rt: &impl Print, pieces: &[Piece]) {
    let mut streams = Streams::begun(rt, 64);
    for piece in pieces {
        streams.comes(rt, *piece);
    }
    told(rt, &streams);
}

// A report is complete and taken, the stream is cleared, and a segment comes: they begin at 1 again.
fn again(rt: &impl Print) {
    let mut streams = Streams::begun(rt, 64);
    streams.comes(rt, last(16, 16));
    streams.comes(rt, more(0, 16));
    cleared(rt, &mut streams);
    streams.comes(rt, more(32, 16));
    told(rt, &streams);
}

// A stream of limit 64 that holds 0 to 16 with this number, after so many accepted segments, and the same in words: made by hand.
fn made(rt: &impl Print, number: u32, accepted: u32) -> Streams {
    out(
        rt,
        format_args!("made by hand, 0 to 16 has {number}, count {accepted}; "),
    );
    let held = TpRange {
        start: 0,
        end: 16,
        number,
    };
    Streams::made(TpStream {
        limit: 64,
        ranges: [held; MAX_RANGES],
        count: 1,
        end: None,
        accepted,
    })
}

// A segment comes to a stream that was made by hand.
fn by_hand(rt: &impl Print, number: u32, accepted: u32) {
    let mut streams = made(rt, number, accepted);
    streams.comes(rt, more(16, 16));
    told(rt, &streams);
}

// The last number is given, the next segment is refused, and so it is until the stream is cleared.
fn last_number(rt: &impl Print) {
    let mut streams = made(rt, 1, LAST_NUMBER - 1);
    streams.comes(rt, last(16, 16));
    streams.comes(rt, last(16, 16));
    cleared(rt, &mut streams);
    streams.comes(rt, last(16, 16));
    told(rt, &streams);
}

// A stream of limit 64 that holds 64 ranges of no byte, 0 to 0, 1 to 1 and so on, with no number left, and the same in words: made by hand.
fn full_at_last(rt: &impl Print) -> Streams {
    out(rt, "made by hand, 64 ranges, count 4294967295; ");
    let mut ranges = [TpRange {
        start: 0,
        end: 0,
        number: 1,
    }; MAX_RANGES];
    for (i, range) in ranges.iter_mut().enumerate() {
        range.start = i as u32;
        range.end = i as u32;
    }
    Streams::made(TpStream {
        limit: 64,
        ranges,
        count: MAX_RANGES,
        end: None,
        accepted: LAST_NUMBER,
    })
}

// One range more is refused with 35; a segment that joins ranges has a place, and is refused with 39.
fn full_first(rt: &impl Print) {
    let mut streams = full_at_last(rt);
    streams.comes(rt, more(64, 0));
    streams.comes(rt, more(48, 16));
    count(rt, &streams);
    out(rt, "\n");
}

fn main(rt: HostRuntime) {
    // Two that touch, three that join, and one that is not touched: the larger number is kept.
    come(&rt, &[more(0, 16), more(16, 16), more(48, 16)]);
    come(&rt, &[more(32, 16), more(0, 16), more(16, 16)]);
    come(&rt, &[more(0, 16), more(48, 16), more(0, 16)]);
    // A refused one between counts nowhere, an empty one counts.
    come(&rt, &[more(0, 16), more(16, 15), more(16, 16)]);
    come(&rt, &[more(0, 16), more(16, 0), more(48, 16)]);
    again(&rt);
    // 4294967295 is given, and then 39; 35 comes before it.
    last_number(&rt);
    full_first(&rt);
    // Number 0, and one above the count: 38. The count itself is well.
    by_hand(&rt, 0, 5);
    by_hand(&rt, 6, 5);
    by_hand(&rt, 5, 5);
}
