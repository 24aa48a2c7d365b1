// What is written into the lent buffer: a segment's payload and header, and the report's length field.
ghost use Rattle.std.specs.Prelude.{◌≡◌, ◌+◌, ◌≤◌, length};
ghost use Rattle.tp_machine.specs.Segments.{without_tp, header, pasted};
ghost use Rattle.tp_rules.specs.Writing.{written_at, length_put};

use crate::MAX_LIMIT;
use tp_segment::{HEADER_LEN, SEGMENT_HEADER_LEN};

// Copies src into buf from index `at`.
#[tactic(auto, unfolding(tp_machine::specs::Segments::pasted))]
fn put(buf: &mut [u8], at: usize, src: &[u8])
    requires { at + length src.now ≤ length buf.old }
    ensures { buf.new ≡ pasted buf.old at src.now }
{
    buf[at..at + src.len()].copy_from_slice(src);
}

// A message type with 0x20 cleared.
#[tactic(auto, using(crate::proofs::WritingLaws::tp_cleared))]
fn without_tp(t: u8) -> u8
    ensures { result ≡ without_tp t }
{
    t & !0x20
}

// The header's 16 bytes, with 0x20 cleared in byte 14.
fn put_header(buf: &mut [u8], seg: &[u8])
    requires { (16 ≤ length seg.now) × (16 ≤ length buf.old) }
    ensures { buf.new ≡ pasted buf.old 0 (header seg.now) }
{
    put(buf, 0, &seg[..HEADER_LEN]);
    buf[14] = without_tp(seg[14]);
}

// The payload of a segment at `offset`, and for an offset of 0 its header too; nothing where that does not fit.
#[tactic(auto, unfolding(crate::specs::Writing::written_at, tp_machine::specs::Segments::payload))]
pub fn write(buf: &mut [u8], seg: &[u8], offset: u32)
    ensures { buf.new ≡ written_at buf.old offset seg.now }
{
    let at = HEADER_LEN + offset as usize;
    if seg.len() < SEGMENT_HEADER_LEN
        || buf.len() < at
        || buf.len() - at < seg.len() - SEGMENT_HEADER_LEN
    {
        return;
    }
    if offset == 0 {
        put_header(buf, seg);
    }
    put(buf, at, &seg[SEGMENT_HEADER_LEN..]);
}

// The length field, bytes 4 to 7, of a report whose payload ends at `end`; nothing where the buffer has none, or past the highest limit.
#[tactic(auto, using(crate::proofs::WritingLaws::four_bytes), unfolding(crate::specs::Writing::length_put, tp_machine::specs::Segments::pasted))]
pub fn put_length(buf: &mut [u8], end: usize)
    ensures { buf.new ≡ length_put buf.old end }
{
    if buf.len() < 8 || end > MAX_LIMIT as usize {
        return;
    }
    buf[4..8].copy_from_slice(&(end as u32 + 8).to_be_bytes());
}
