// Runs the rules' cases of joining segments through the public functions and the exported ones, and prints each on a
// line: what came, the answer to it, and at the end the report. The file stdout holds what the rules say; where an exported function told
// something else, the line says so.
#![tactic(auto)]

ghost use Rattle.std.specs.Prelude.{◌≤◌};

use case_lines::Exported;
use print::out;
use tp_pieces::{Came, Piece, ROOM, Streams, WORDS, last, more};

mod ends; // ends.rt: an end behind the data held

// Room for a report of 2,112 bytes of payload.
const MUCH_ROOM: usize = 2128;

// So many segments of 16 bytes come, with gaps of 16 between them, the first at `first`; prints whether all are accepted.
fn come_apart(
    rt: &impl Print,
    streams: &mut Streams<MUCH_ROOM, WORDS, MUCH_ROOM>,
    first: u16,
    segments: u16,
)
    requires { (first ≤ 16) × (segments ≤ 64) }
{
    out(
        rt,
        format_args!("{segments} of 16 bytes at {first} and every 32 bytes, more follow: "),
    );
    let mut all = true;
    for i in 0..segments {
        let Came { said, told } = streams.consumed(more(first + 32 * i, 16));
        all &= said.number == 0;
        out(rt, Exported { said, told });
    }
    out(
        rt,
        if all {
            "all accepted; "
        } else {
            "not all accepted; "
        },
    );
}

// A case of these pieces.
fn case(rt: &impl Print, limit: u32, pieces: &[Piece]) {
    let mut streams = Streams::<ROOM, WORDS, ROOM>::begun(rt, limit);
    for piece in pieces {
        streams.comes(rt, *piece);
    }
    streams.taken(rt);
}

// 64 ranges are held: one more gets 35; one that joins two of them is accepted, and then the one more is.
fn full(rt: &impl Print) {
    let mut streams = Streams::<MUCH_ROOM, WORDS, MUCH_ROOM>::begun(rt, 2112);
    come_apart(rt, &mut streams, 0, 64);
    for piece in [more(2048, 16), more(16, 16), more(2048, 16)] {
        streams.comes(rt, piece);
    }
    streams.taken(rt);
}

// Every second of 128 segments, and then the others: complete.
fn odd_even(rt: &impl Print) {
    let mut streams = Streams::<MUCH_ROOM, WORDS, MUCH_ROOM>::begun(rt, 2112);
    come_apart(rt, &mut streams, 0, 64);
    streams.comes(rt, last(2032, 16));
    come_apart(rt, &mut streams, 16, 63);
    streams.taken(rt);
}

// 0 to 32 is held, and two segments come.
fn behind(rt: &impl Print, a: Piece, b: Piece) {
    case(rt, 64, &[more(0, 16), more(16, 16), a, b]);
}

fn main(rt: HostRuntime) {
    // 16 more at 0, 16 final at 16: complete, length field 40.
    case(&rt, 64, &[more(0, 16), last(16, 16)]);
    // 15 bytes with more: 32; final: accepted.
    case(&rt, 64, &[more(0, 15)]);
    case(&rt, 64, &[last(0, 15)]);
    // End 16, then 16 at 16: 33 (16, 32).
    case(&rt, 64, &[last(0, 16), more(16, 16)]);
    case(&rt, 64, &[last(0, 16), last(16, 16)]);
    // Empty final at 0: complete, length 8.
    case(&rt, 64, &[last(0, 0)]);
    // Limit 32: empty at 32 accepted, at 48 31.
    case(&rt, 32, &[last(32, 0)]);
    case(&rt, 32, &[last(48, 0)]);
    full(&rt);
    odd_even(&rt);
    // 0 to 32 is held: an end of 16 is 33 (32, 16), one of 31 33 (32, 31), one of 32 accepted.
    behind(&rt, last(0, 16), last(16, 16));
    behind(&rt, last(16, 15), last(32, 0));
    // An empty final at 0 with 16 bytes held: 33 (16, 0).
    case(&rt, 64, &[more(0, 16), last(0, 0)]);
    // By hand: end 64, 0 to 32 held: 33 (64, 16). End 16: 38.
    ends::both_rules(&rt);
    ends::past_end(&rt);
}
