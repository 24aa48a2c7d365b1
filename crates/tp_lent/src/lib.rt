// A stream in words that the caller lends, judged and joined where they stand. A stream that was begun keeps its ranges in order, and one pass over
// them judges the state; words that are out of order, or unfit, and segments that are refused take the way by value, `tp_stream` over `tp_words`:
// the same answers, slower. Both ways ask the same rules, the functions of `tp_rules`.
#![tactic(auto)]

ghost use Rattle.std.specs.Prelude.{◌≡◌};
ghost use Rattle.tp_machine.specs.Taking.{complete as complete_of};
ghost use Rattle.tp_stream.specs.Promises.{Took};
ghost use Rattle.tp_words.specs.Words.{stream_of, state_of};
ghost use Rattle.tp_lent.specs.Lent.{Joins, Cleared};

use refusal::Refusal;
use tp_words::{put, stream_of, unfit};

mod ranges; // ranges.rt: the ranges where they stand
mod ready; // ready.rt: words that are judged but for their ranges
mod order; // order.rt: one pass over them
mod planning; // planning.rt: a segment that is accepted at once

// One segment comes, by value: the stream is read out of the words, and put back where the segment is accepted.
fn consume_by_value(words: &mut [u32], seg: &[u8], buf: &mut [u8]) -> Result<(), Refusal>
    ensures { Joins words.old seg.now buf.old result words.new buf.new }
{
    let step = tp_stream::consume(stream_of(words), seg, buf);
    step.answer?;
    put(words, step.after);
    Ok(())
}

// One segment comes; a refusal leaves words and buffer as they were.
pub fn consume(words: &mut [u32], seg: &[u8], buf: &mut [u8]) -> Result<(), Refusal>
    ensures { Joins words.old seg.now buf.old result words.new buf.new }
{
    if let Some(first) = words.first_chunk_mut() {
        if let Some(plan) = planning::plan_of(first, seg, buf.len()) {
            planning::carry_out(first, seg, buf, plan);
            return Ok(());
        }
    }
    consume_by_value(words, seg, buf)
}

// Whether the stream is complete. If it is, it has one range, and so words that are in order.
pub fn complete(words: &[u32]) -> bool
    ensures { result ≡ complete_of (state_of words.now) }
{
    let Some(stream) = order::in_order(words) else {
        return false;
    };
    tp_rules::whole(stream.end(), stream.count(), stream.range_at(0))
}

// Taking the report: answers 38, 37 and 34, or the length field is written and where the payload ends is told.
pub fn take(words: &[u32], buf: &mut [u8]) -> Result<usize, Refusal>
    ensures { Took (stream_of words.now) buf.old result buf.new }
{
    let Some(stream) = order::in_order(words) else {
        return tp_stream::take(stream_of(words), buf);
    };
    let end = tp_rules::ready_of(stream.end(), stream.count(), stream.range_at(0), buf.len())?;
    tp_rules::put_length(buf, end);
    Ok(end)
}

// The stream without its ranges, its end and its count: answer 38 where the words are unfit, and they are left alone.
pub fn clear(words: &mut [u32]) -> Result<(), Refusal>
    ensures { Cleared words.old result words.new }
{
    if unfit(words) {
        return Err(Refusal::MalformedState);
    }
    if let Some(first) = words.first_chunk_mut() {
        planning::put_front(first, 0, None, 0); // words that are not unfit are enough
    }
    Ok(())
}
