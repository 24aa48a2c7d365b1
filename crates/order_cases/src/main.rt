// Order doesn't matter: runs segments in several orders through the public functions and the exported ones, over buffers that hold other bytes, and
// prints each order on a line: what came, the answer to it, and at the end the report. They are those of tp_machine's instances
// (specs/AnyOrderCases.antt), but for the letters. The file stdout holds what the rules say; where an exported function told something else, the line
// says so.
#![tactic(auto)]

use case_lines::{Exported, Judged};
use hub::tp::viaductle_take;
use print::{Bytes, out};
use refusal::Numbers;
use std::fmt;
use tp_pieces::{Came, ROOM, Streams, WORDS};

// 0 to 16, 16 to 32, and 32 to 36, the last.
const FRONT: [u8; 36] = *b"\
    \x12\x34\x80\x01\0\0\0\x1c\0\0\0\x01\x01\x01\x22\0\
    \0\0\0\x01aaaaaaaaaaaaaaaa";

const MIDDLE: [u8; 36] = *b"\
    \x12\x34\x80\x01\0\0\0\x1c\0\0\0\x01\x01\x01\x22\0\
    \0\0\0\x11bbbbbbbbbbbbbbbb";

const BACK: [u8; 24] = *b"\
    \x12\x34\x80\x01\0\0\0\x10\0\0\0\x01\x01\x01\x22\0\
    \0\0\0\x20cccc";

// 32 to 48, and 48 to 52, the last.
const LATER: [u8; 36] = *b"\
    \x12\x34\x80\x01\0\0\0\x1c\0\0\0\x01\x01\x01\x22\0\
    \0\0\0\x21dddddddddddddddd";

const LAST: [u8; 24] = *b"\
    \x12\x34\x80\x01\0\0\0\x10\0\0\0\x01\x01\x01\x22\0\
    \0\0\0\x30eeee";

// No byte at 0, under another message id; 0 to 16, final; 0 to 32, final.
const EMPTY: [u8; 20] = *b"\
    \x12\x34\x80\x02\0\0\0\x0c\0\0\0\x01\x01\x01\x22\0\
    \0\0\0\x01";

const ALONE: [u8; 36] = *b"\
    \x12\x34\x80\x01\0\0\0\x1c\0\0\0\x01\x01\x01\x22\0\
    \0\0\0\0ffffffffffffffff";

const WHOLE: [u8; 52] = *b"\
    \x12\x34\x80\x01\0\0\0\x2c\0\0\0\x01\x01\x01\x22\0\
    \0\0\0\0gggggggggggggggggggggggggggggggg";

// A segment's payload.
#[derive(Clone, Copy)]
struct Payload<'a>(&'a [u8]);

impl<'a> fmt::Display for Payload<'a> {
    fn fmt<W: fmt::Write>(&self, f: &mut fmt::Formatter<W>) -> fmt::Result {
        let segment = self.0;
        if segment.len() <= 20 {
            return f.write_str("no byte");
        }
        write!(f, "{}", Bytes(&segment[20..]))
    }
}

// A message: its id, its length field, and what stands behind the header.
#[derive(Clone, Copy)]
struct Message<'a>(&'a [u8]);

impl<'a> fmt::Display for Message<'a> {
    fn fmt<W: fmt::Write>(&self, f: &mut fmt::Formatter<W>) -> fmt::Result {
        let m = self.0;
        if m.len() < 16 {
            return Ok(());
        }
        let id = u32::from_be_bytes([m[0], m[1], m[2], m[3]]);
        let length = u32::from_be_bytes([m[4], m[5], m[6], m[7]]);
        write!(f, "{id:#010x}, length field {length}, {}", Bytes(&m[16..]))
    }
}

// The report is taken; prints it, and all of the exported one's buffer (`tp_pieces` prints how long it is.)
fn taken(rt: &impl Print, streams: &mut Streams<ROOM, WORDS, ROOM>) {
    let answer = tp_stream::take(streams.here, &mut streams.buf);
    let told = viaductle_take(&streams.words, &mut streams.other);
    match answer {
        Ok(_) => {
            let report = tp_stream::report(streams.here, &streams.buf);
            let said = Numbers::new(0, &[report.len() as u64]);
            out(
                rt,
                format_args!(
                    "{}{}; exported {}\n",
                    Message(report),
                    Exported { said, told },
                    Message(&streams.other)
                ),
            );
        }
        Err(refusal) => {
            let said = Numbers::from(refusal);
            out(rt, format_args!("{}\n", Judged { said, told }));
        }
    }
}

// Segments come in this order, each printed with the answer, over buffers that hold other bytes.
fn order(rt: &impl Print, segments: &[&[u8]]) {
    let mut streams = Streams::begun(rt, 64);
    streams.buf = [b'x'; ROOM];
    streams.other = [b'-'; ROOM];
    for segment in segments {
        let Came { said, told } = streams.brought(segment);
        out(
            rt,
            format_args!("{} {}; ", Payload(segment), Judged { said, told }),
        );
    }
    taken(rt, &mut streams);
}

fn main(rt: HostRuntime) {
    // Six orders, one report.
    order(&rt, &[&FRONT, &MIDDLE, &BACK]);
    order(&rt, &[&FRONT, &BACK, &MIDDLE]);
    order(&rt, &[&MIDDLE, &FRONT, &BACK]);
    order(&rt, &[&MIDDLE, &BACK, &FRONT]);
    order(&rt, &[&BACK, &FRONT, &MIDDLE]);
    order(&rt, &[&BACK, &MIDDLE, &FRONT]);
    // A gap: complete in neither order.
    order(&rt, &[&FRONT, &LATER, &LAST]);
    order(&rt, &[&LAST, &FRONT, &LATER]);
    // Where one is empty, or two overlap, it does matter.
    order(&rt, &[&EMPTY, &ALONE]);
    order(&rt, &[&ALONE, &EMPTY]);
    order(&rt, &[&FRONT, &WHOLE]);
    order(&rt, &[&WHOLE, &FRONT]);
}
