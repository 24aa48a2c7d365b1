// One stream of TP segments, joined in a lent buffer. The stream's state is a value, handed in and handed back; the rules are `tp_rules`'. (tp_buf.rs)
#![tactic(auto)]

ghost use Rattle.std.specs.Prelude.{◌≡◌, ◌≤◌, length};
ghost use Rattle.tp_machine.specs.Machine.{most, fresh as fresh_of, clear as clear_of};
ghost use Rattle.tp_machine.specs.Taking.{complete as complete_of, ready as ready_of, report as report_of};
ghost use Rattle.tp_stream.specs.Stream.{view, stored, blank};
ghost use Rattle.tp_stream.specs.Promises.{Began, Ran, Took, stepped};

use refusal::{Refusal, Step};
use tp_machine::TpRange;
use tp_range::{MAX_RANGES, UNUSED};
use tp_rules::MAX_LIMIT;
use tp_segment::HEADER_LEN;

mod malformed; // malformed.rt: answer 38
mod judging; // judging.rt: answers 38 and 30 to 34 of a segment
mod taking; // taking.rt: answers 38, 37 and 34 of taking
mod telling; // telling.rt: the count and the ranges with their numbers, answers 38 and 20

pub use telling::{accepted, range_from};

// The last number that a segment can have.
pub const LAST_NUMBER: u32 = u32::MAX;

// A stream's state: the payload limit, the ranges held (the first `count` places), the end, where it is known, and how many segments were
// accepted since it was begun or cleared. A value, as the rules' paper has it, so a count stands beside the array; one above 64 can be made by hand.
#[derive(Clone, Copy)]
pub struct TpStream {
    pub limit: u32,
    pub ranges: [TpRange; MAX_RANGES],
    pub count: usize,
    pub end: Option<u32>,
    pub accepted: u32,
}

impl TpStream {
    // The ranges held; of a count past the array's end all places.
    #[tactic(auto, using(crate::proofs::StreamLaws::held_take, crate::proofs::StreamLaws::length_of_map))]
    pub(crate) fn held(&self) -> &[TpRange]
        ensures { self.now.count ≤ most → result.now ≡ (view self.now).ranges }
    {
        tp_range::held(&self.ranges, self.count)
    }
}

// A stream that holds nothing.
fn fresh(limit: u32) -> TpStream
    ensures { result ≡ stored blank (fresh_of limit) }
{
    TpStream {
        limit,
        ranges: [UNUSED; MAX_RANGES],
        count: 0,
        end: None,
        accepted: 0,
    }
}

// A fresh stream of that payload limit; or answer 36, and one of limit 0.
pub fn begin(limit: u32) -> Step<(), TpStream>
    ensures { Began limit result }
{
    if MAX_LIMIT < limit {
        return Step {
            answer: Err(Refusal::LimitTooLarge(limit)),
            after: fresh(0),
        };
    }
    Step {
        answer: Ok(()),
        after: fresh(limit),
    }
}

// One segment comes: the answer and the state after it; the buffer then holds what the segment brought.
pub fn consume(s: TpStream, seg: &[u8], buf: &mut [u8]) -> Step<(), TpStream>
    ensures { Ran s seg.now buf.old result buf.new }
{
    // not by `map` and `unwrap_or`, which is no plainer
    match accept(s, seg, buf) {
        Ok(after) => Step {
            answer: Ok(()),
            after,
        },
        Err(refusal) => Step {
            answer: Err(refusal),
            after: s,
        },
    }
}

// The stream that a segment was joined to, which is written; or answers 38, 30 to 35 and 39, and nothing is written.
#[tactic(auto, using(crate::proofs::StepLaws::ends_low))]
fn accept(s: TpStream, seg: &[u8], buf: &mut [u8]) -> Result<TpStream, Refusal>
    ensures { Ran s seg.now buf.old (stepped s result) buf.new }
{
    let header = judging::judge(&s, seg, buf.len())?;
    let new = TpRange {
        start: header.offset,
        end: header.offset + header.size as u32,
        number: s.accepted.saturating_add(1),
    };
    let joined = tp_range::join(s.ranges, s.count, new).ok_or(Refusal::RangesFull)?;
    if s.accepted == LAST_NUMBER {
        return Err(Refusal::CountFull);
    }
    tp_rules::write(buf, seg, header.offset);
    let ranges = joined.ranges;
    Ok(TpStream {
        limit: s.limit,
        ranges,
        count: joined.count,
        end: tp_rules::end_after(s.end, header.more, new.end),
        accepted: new.number,
    })
}

// Whether a stream is complete.
#[tactic(auto, using(crate::proofs::TakingLaws::complete_bad, crate::proofs::TakingLaws::complete_held, crate::proofs::StreamLaws::length_of_map))]
pub fn complete(s: TpStream) -> bool
    ensures { result ≡ complete_of (view s) }
{
    !malformed::malformed(&s) && tp_rules::whole(s.end, s.count, s.ranges[0])
}

// Taking the report: answers 38, 37 and 34, or the length field is written and where the payload ends is told.
#[tactic(auto, using(crate::proofs::TakingLaws::took_nothing))]
pub fn take(s: TpStream, buf: &mut [u8]) -> Result<usize, Refusal>
    ensures { Took s buf.old result buf.new }
{
    let end = taking::ready(&s, buf.len())?;
    tp_rules::put_length(buf, end);
    Ok(end)
}

// The report as a part of the buffer, where taking is not refused; else an empty part.
pub fn report(s: TpStream, buf: &[u8]) -> &[u8]
    ensures { result.now ≡ report_of (ready_of (view s) (length buf.now)) buf.now }
{
    let Ok(end) = taking::ready(&s, buf.len()) else {
        return &buf[..0];
    };
    let n = HEADER_LEN + end;
    &buf[..n]
}

// The stream without its ranges, its end and its count.
#[tactic(auto, using(crate::proofs::StreamLaws::cleared))]
pub fn clear(s: TpStream) -> TpStream
    ensures { result ≡ stored s (clear_of (view s)) }
{
    TpStream {
        count: 0,
        end: None,
        accepted: 0,
        ..s
    }
}
