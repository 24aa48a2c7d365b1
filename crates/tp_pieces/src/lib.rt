// Cases of joining segments on a line, for the programs that run them: what comes to a stream, here and by the exported functions, and the answer to
// it. Where an exported function told something else, the line says so.
#![tactic(auto)]

ghost use Rattle.std.specs.Prelude.{◌+◌, ◌%◌, ◌≡◌, true, false, cond, take, replicate};
ghost use Rattle.tp_words.specs.Words.{put};
ghost use Rattle.tp_pieces.specs.Pieces.{size as type_size, offset, bytes, numbers, Begun, Brought, CameTo, Comes, Takes};

use case_lines::{Exported, Judged, said};
use hub::answers::Answer;
use hub::tp::{viaductle_begin, viaductle_consume, viaductle_take};
use print::out;
use refusal::{Numbers, Refusal};
use std::fmt;
use tp_stream::TpStream;
pub use tp_words::WORDS;

// Room for a report of 64 bytes of payload.
pub const ROOM: usize = 80;

// A segment but for its length, offset and bit for more: header, TP word, and 16 bytes of payload.
const FRAME: [u8; 36] = *b"\
    \x12\x34\x80\x01\0\0\0\0\
    \0\0\0\x01\x01\x01\x22\0\
    \0\0\0\0\
    \x07\x07\x07\x07\x07\x07\x07\x07\x07\x07\x07\x07\x07\x07\x07\x07";

// A segment's payload: where it goes, how long it is (at most 16), whether more follow.
#[derive(Clone, Copy)]
pub struct Piece {
    pub offset: u16,
    pub length: u8,
    pub more: bool,
}

// A segment with more to follow, and a final one.
pub fn more(offset: u16, length: u8) -> Piece
    ensures { result ≡ record { offset = offset; length = length; more = true } }
{
    Piece {
        offset,
        length,
        more: true,
    }
}

pub fn last(offset: u16, length: u8) -> Piece
    ensures { result ≡ record { offset = offset; length = length; more = false } }
{
    Piece {
        offset,
        length,
        more: false,
    }
}

// The last byte of the TP word: the offset's low bits, of which four are not sent, and the bit for more.
fn low_byte(piece: Piece) -> u8
    ensures { result ≡ (offset piece + cond piece.more 1 0) % 256 }
{
    let low = (piece.offset % 256 / 16 * 16) as u8;
    if piece.more { low + 1 } else { low }
}

// How many bytes it has.
fn size(piece: Piece) -> u8
    ensures { result ≡ type_size piece }
{
    piece.length.min(16)
}

// Its segment, with place for a payload of 16.
fn segment(piece: Piece) -> [u8; 36]
    ensures { take (20 + type_size piece) result ≡ bytes piece }
{
    let mut s = FRAME;
    s[7] = 12 + size(piece);
    s[18] = (piece.offset / 256) as u8;
    s[19] = low_byte(piece);
    s
}

// What comes, in words.
impl fmt::Display for Piece {
    fn fmt<W: fmt::Write>(&self, f: &mut fmt::Formatter<W>) -> fmt::Result {
        let piece = *self;
        let follows = if piece.more { "more follow" } else { "final" };
        write!(f, "{} bytes at {}, {follows}", size(piece), piece.offset)
    }
}

// A verdict's number and values. (No `From`: both types are another crate's.)
pub fn said_of(verdict: Result<(), Refusal>) -> Numbers
    ensures { result ≡ numbers verdict }
{
    said(verdict.map(|()| []))
}

// What is said of a segment that came, here and by the exported function.
#[derive(Clone, Copy)]
pub struct Came {
    pub said: Numbers,
    pub told: Answer,
}

// ---- a stream over a buffer, and the exported one: its words, over another buffer; all of any lengths

// Both begin, in the same words; prints the limit.
pub fn begun(rt: &impl Print, limit: u32, words: &mut [u32]) -> TpStream
    ensures { Begun limit words.old result words.new }
{
    out(rt, format_args!("limit {limit}; "));
    viaductle_begin(words, limit);
    tp_stream::begin(limit).after
}

// One segment comes, to both; hands back the stream after it.
pub fn brought(
    s: TpStream,
    buf: &mut [u8],
    words: &mut [u32],
    other: &mut [u8],
    segment: &[u8],
) -> (Came, TpStream)
    ensures { Brought segment.now s buf.old words.old other.old result.0 result.1 buf.new words.new other.new }
{
    let step = tp_stream::consume(s, segment, buf);
    let came = Came {
        said: said_of(step.answer),
        told: viaductle_consume(words, segment, other),
    };
    (came, step.after)
}

// The segment of a piece comes.
pub fn consumed(
    s: TpStream,
    buf: &mut [u8],
    words: &mut [u32],
    other: &mut [u8],
    piece: Piece,
) -> (Came, TpStream)
    ensures { CameTo piece s buf.old words.old other.old result.0 result.1 buf.new words.new other.new }
{
    let bytes = segment(piece);
    brought(s, buf, words, other, &bytes[..20 + size(piece) as usize])
}

// The same; prints it with the answer.
pub fn answered(
    rt: &impl Print,
    s: TpStream,
    buf: &mut [u8],
    words: &mut [u32],
    other: &mut [u8],
    piece: Piece,
) -> TpStream
    ensures { Comes piece s buf.old words.old other.old result buf.new words.new other.new }
{
    let (Came { said, told }, after) = consumed(s, buf, words, other, piece);
    out(rt, format_args!("{piece}: {}", Judged { said, told }));
    after
}

// The same, and more comes on the line.
pub fn comes(
    rt: &impl Print,
    s: TpStream,
    buf: &mut [u8],
    words: &mut [u32],
    other: &mut [u8],
    piece: Piece,
) -> TpStream
    ensures { Comes piece s buf.old words.old other.old result buf.new words.new other.new }
{
    let after = answered(rt, s, buf, words, other, piece);
    out(rt, "; ");
    after
}

// The message is taken; prints what it has, and ends the line.
pub fn taken(rt: &impl Print, s: TpStream, buf: &mut [u8], words: &[u32], other: &mut [u8])
    ensures { Takes s buf.old words.now other.old buf.new other.new }
{
    let answer = tp_stream::take(s, buf);
    let told = viaductle_take(words, other);
    match answer {
        Ok(_) => {
            let report = tp_stream::report(s, buf);
            let said = Numbers::new(0, &[report.len() as u64]);
            out(
                rt,
                format_args!(
                    "complete, a report of {} bytes with length field {}{}\n",
                    report.len(),
                    length_field(report),
                    Exported { said, told }
                ),
            );
        }
        Err(refusal) => {
            let said = Numbers::from(refusal);
            out(rt, format_args!("taking: {}\n", Judged { said, told }));
        }
    }
}

// The length field of a report, or 0 where that has none.
fn length_field(report: &[u8]) -> u32 {
    match report {
        [_, _, _, _, a, b, c, d, ..] => u32::from_be_bytes([*a, *b, *c, *d]),
        _ => 0,
    }
}

// ---- the same, all in one

// Both, with their buffers. The words may be too few or more than a state has, and the buffers of two sizes.
#[derive(Drop)]
pub struct Streams<const N: usize, const W: usize, const M: usize> {
    pub here: TpStream,
    pub buf: [u8; N],
    pub words: [u32; W],
    pub other: [u8; M],
}

impl<const N: usize, const W: usize, const M: usize> Streams<N, W, M> {
    // A stream that was made by hand, and the same in words.
    pub fn made(here: TpStream) -> Self
        ensures stream { result.here ≡ here }
        ensures words { result.words ≡ put (replicate W 0) here }
        ensures buffers { (result.buf ≡ replicate N 0) × (result.other ≡ replicate M 0) }
    {
        let mut words = [0; W];
        tp_words::put(&mut words, here);
        Streams {
            here,
            buf: [0; N],
            words,
            other: [0; M],
        }
    }

    // Both begin, in the same words; prints the limit.
    pub fn begin(&mut self, rt: &impl Print, limit: u32)
        ensures begins { Begun limit self.old.words self.new.here self.new.words }
        ensures buffers { (self.new.buf ≡ self.old.buf) × (self.new.other ≡ self.old.other) }
    {
        self.here = begun(rt, limit, &mut self.words);
    }

    // The same in words of zeros.
    pub fn begun(rt: &impl Print, limit: u32) -> Self
        ensures begins { Begun limit (replicate W 0) result.here result.words }
        ensures buffers { (result.buf ≡ replicate N 0) × (result.other ≡ replicate M 0) }
    {
        let mut words = [0; W];
        let here = begun(rt, limit, &mut words);
        Streams {
            here,
            buf: [0; N],
            words,
            other: [0; M],
        }
    }

    // One segment comes, to both.
    pub fn brought(&mut self, segment: &[u8]) -> Came
        ensures { Brought segment.now self.old.here self.old.buf self.old.words self.old.other result self.new.here self.new.buf self.new.words self.new.other }
    {
        let (came, after) = brought(
            self.here,
            &mut self.buf,
            &mut self.words,
            &mut self.other,
            segment,
        );
        self.here = after;
        came
    }

    // The segment of a piece comes.
    pub fn consumed(&mut self, piece: Piece) -> Came
        ensures { CameTo piece self.old.here self.old.buf self.old.words self.old.other result self.new.here self.new.buf self.new.words self.new.other }
    {
        let (came, after) = consumed(
            self.here,
            &mut self.buf,
            &mut self.words,
            &mut self.other,
            piece,
        );
        self.here = after;
        came
    }

    // The same; prints it with the answer.
    pub fn answered(&mut self, rt: &impl Print, piece: Piece)
        ensures { Comes piece self.old.here self.old.buf self.old.words self.old.other self.new.here self.new.buf self.new.words self.new.other }
    {
        self.here = answered(
            rt,
            self.here,
            &mut self.buf,
            &mut self.words,
            &mut self.other,
            piece,
        );
    }

    // The same, and more comes on the line.
    pub fn comes(&mut self, rt: &impl Print, piece: Piece)
        ensures { Comes piece self.old.here self.old.buf self.old.words self.old.other self.new.here self.new.buf self.new.words self.new.other }
    {
        self.here = comes(
            rt,
            self.here,
            &mut self.buf,
            &mut self.words,
            &mut self.other,
            piece,
        );
    }

    // The message is taken; prints what it has, and ends the line.
    pub fn taken(&mut self, rt: &impl Print)
        ensures takes { Takes self.old.here self.old.buf self.old.words self.old.other self.new.buf self.new.other }
        ensures kept { (self.new.here ≡ self.old.here) × (self.new.words ≡ self.old.words) }
    {
        taken(rt, self.here, &mut self.buf, &self.words, &mut self.other);
    }
}
