// The tests of a segment's header, in the rules' order: 31, 32, 33, 34. Each rule is a function.
ghost use Rattle.std.specs.Prelude.{◌≡◌, ◌&&◌, not, cond, ◌+◌, ◌%◌, eqb, ltb};
ghost use Rattle.refusal.specs.Said.{verdict_said};
ghost use Rattle.tp_machine.specs.Machine.{conflicts, previous};
ghost use Rattle.tp_rules.specs.Judging.{header_judged};

use refusal::Refusal;
use tp_segment::{HEADER_LEN, TpHeader};

// 31: whether the segment ends past the limit.
fn too_big(limit: u32, header: TpHeader) -> bool
    ensures { result ≡ ltb limit (header.offset + header.size) }
{
    limit < header.offset || ((limit - header.offset) as usize) < header.size
}

// 32: whether more follows and the length is not a multiple of 16.
fn not_aligned(header: TpHeader) -> bool
    ensures { result ≡ (header.more && not (eqb (header.size % 16) 0)) }
{
    header.more && header.size % 16 != 0
}

// 33: whether an end is known and x is past it, or x is another end of a final segment.
fn conflicting(end: Option<u32>, more: bool, x: u32) -> bool
    ensures { result ≡ conflicts end more x }
{
    match end {
        None => false,
        // not by `||` and `&&`, of which the compiler computes both sides: quicker (docs/SPEED.md)
        Some(e) => {
            if e < x {
                return true;
            }
            if more {
                return false;
            }
            x != e
        }
    }
}

// The end that is known, or 0.
pub fn previous_end(end: Option<u32>) -> u32
    ensures { result ≡ previous end }
{
    end.unwrap_or(0)
}

// 34: how long a buffer must be for a payload that ends at x.
pub(crate) fn needed(x: u32) -> usize
    ensures { result ≡ 16 + x }
{
    HEADER_LEN + x as usize
}

// 31 to 34 of a segment with that header, for a stream of that limit and end: `least` is how far it has to reach, `room` how long the buffer is.
#[tactic(auto, using(numbers::proofs::AnswerLaws::when_hit, numbers::proofs::AnswerLaws::when_pass), unfolding(crate::specs::Judging::header_judged))]
pub fn judge_header(
    limit: u32,
    end: Option<u32>,
    least: u32,
    header: TpHeader,
    room: usize,
) -> Result<(), Refusal>
    ensures { verdict_said result ≡ header_judged limit end least header room }
{
    let offset = header.offset;
    let length = header.size;
    if too_big(limit, header) {
        return Err(Refusal::SegmentTooBig {
            offset,
            length,
            max: limit,
        });
    }
    if not_aligned(header) {
        return Err(Refusal::UnalignedTpPayloadLen { offset, length });
    }
    let new = offset + length as u32;
    if conflicting(end, header.more, new) {
        return Err(Refusal::ConflictingEnd {
            previous: previous_end(end),
            new,
        });
    }
    if new < least {
        return Err(Refusal::ConflictingEnd {
            previous: least,
            new,
        });
    }
    let needed = needed(new);
    if room < needed {
        return Err(Refusal::BufferTooShort(needed));
    }
    Ok(())
}

// The end that is known after a segment that ends at x: a final one sets it.
pub fn end_after(end: Option<u32>, more: bool, x: u32) -> Option<u32>
    ensures { result ≡ cond more end (Some x) }
{
    if more { end } else { Some(x) }
}
