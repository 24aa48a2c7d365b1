// An end behind the data: streams made by hand with an end past what they hold, and with a range past their end.
use case_lines::Exported;
use hub::tp::viaductle_complete;
use print::out;
use refusal::Numbers;
use tp_machine::TpRange;
use tp_pieces::{ROOM, Streams, WORDS, last};
use tp_range::MAX_RANGES;
use tp_stream::TpStream;

// A stream of limit 64 that holds 0 to 32, with this end, and the same in words: made by hand, as no run makes it.
fn made(rt: &impl Print, end: u32) -> Streams<ROOM, WORDS, ROOM> {
    out(
        rt,
        format_args!("made by hand, limit 64, 0 to 32 held, end {end}; "),
    );
    let held = TpRange {
        start: 0,
        end: 32,
        number: 1,
    };
    Streams::made(TpStream {
        limit: 64,
        ranges: [held; MAX_RANGES],
        count: 1,
        end: Some(end),
        accepted: 1,
    })
}

// Whether a stream is complete, here and by the exported function.
fn whether_complete(rt: &impl Print, streams: &Streams<ROOM, WORDS, ROOM>) {
    let complete = tp_stream::complete(streams.here);
    let said = Numbers::new(0, &[u64::from(complete)]);
    let told = viaductle_complete(&streams.words);
    let not = if complete { "" } else { "not " };
    out(
        rt,
        format_args!("{not}complete{}; ", Exported { said, told }),
    );
}

// An end of 64 is known and 0 to 32 held: 33 tells the end that is known, and not how far the data reaches.
pub(crate) fn both_rules(rt: &impl Print) {
    let mut streams = made(rt, 64);
    streams.answered(rt, last(0, 16));
    out(rt, "\n");
}

// A range past the end that is known: 38, and not complete; begun anew in the same words, it is a fresh stream.
pub(crate) fn past_end(rt: &impl Print) {
    let mut streams = made(rt, 16);
    streams.comes(rt, last(0, 16));
    whether_complete(rt, &streams);
    streams.taken(rt);
    streams.begin(rt, 64);
    streams.comes(rt, last(0, 16));
    streams.taken(rt);
}
