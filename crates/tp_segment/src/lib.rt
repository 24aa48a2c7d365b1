// One segment: whether bytes are one (answer 30), and what its header says. (tp_header.rs)
#![tactic(auto)]

ghost use Rattle.std.specs.Prelude.{◌≡◌, ◌≤◌, length, IsTrue};
ghost use Rattle.tp_machine.specs.Segments.{tp_type, is_segment};
ghost use Rattle.tp_segment.specs.Reading.{segment_said, reading};

use big_endian::be32;
use refusal::Refusal;

// How long a message's header is, and a segment's, which has the TP word behind it.
pub const HEADER_LEN: usize = 16;

pub const SEGMENT_HEADER_LEN: usize = 20;

// Where a segment's payload goes, whether more follows, and how long the payload is.
#[derive(Clone, Copy)]
pub struct TpHeader {
    pub offset: u32,
    pub more: bool,
    pub size: usize,
}

// Whether a message type has the TP bit.
#[tactic(auto, unfolding(tp_machine::specs::Segments::tp_type))]
fn tp_type(t: u8) -> bool
    ensures { result ≡ tp_type t }
{
    matches!(t, 0x20 | 0x21 | 0x22 | 0xa0 | 0xa1)
}

// Whether bytes are a segment: the contrary of answer 30.
#[tactic(auto, unfolding(tp_machine::specs::Segments::is_segment, numbers::specs::Bytes::at32, numbers::specs::Bytes::at16))]
fn is_segment(s: &[u8]) -> bool
    ensures is { result ≡ is_segment s.now }
    ensures long { IsTrue result → 20 ≤ length s.now }
{
    s.len() >= SEGMENT_HEADER_LEN
        && be32(s[4], s[5], s[6], s[7]) as usize == s.len() - 8
        && s[12] == 1
        && tp_type(s[14])
}

// What a segment's header says, or answer 30.
#[tactic(auto, using(crate::proofs::Laws::reads_not, crate::proofs::Laws::reads_good), unfolding(numbers::specs::Bytes::at32, numbers::specs::Bytes::at16))]
pub fn read(s: &[u8]) -> Result<TpHeader, Refusal>
    ensures { segment_said result ≡ reading s.now }
{
    if !is_segment(s) {
        return Err(Refusal::NotASegment);
    }
    let tp = be32(s[16], s[17], s[18], s[19]);
    Ok(TpHeader {
        offset: tp - tp % 16,
        more: tp % 2 == 1,
        size: s.len() - SEGMENT_HEADER_LEN,
    })
}
