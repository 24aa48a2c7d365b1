// Answers as numbers: the rules' number, 0 for accepted, and the values that it gives, in their order.
ghost use Rattle.std.specs.Prelude.{◌≡◌};
ghost use Rattle.refusal.specs.Said.{said, said_by, verdict_said};
ghost use Rattle.hub.specs.Answers.{row, without_count, refusal_row, no_values, told, one_value, located_values, range_values};

use refusal::{Numbers, PLACES, Refusal};
use sd_index::Found;
use tp_machine::TpRange;

// A number, and its values in order; places that it does not use hold 0.
#[repr(C)]
#[derive(Clone, Copy)]
pub struct Answer {
    pub number: u64,
    pub values: [u64; PLACES],
}

// Numbers, without how many of the values count.
impl From<Numbers> for Answer {
    ghost from_gives = { λ numbers answer. answer ≡ without_count numbers };

    fn from(numbers: Numbers) -> Answer {
        let values = numbers.values;
        Answer {
            number: numbers.number,
            values,
        }
    }
}

// A refusal.
impl From<Refusal> for Answer {
    ghost from_gives = { λ refusal answer. answer ≡ refusal_row (said refusal) };

    fn from(refusal: Refusal) -> Answer {
        Answer::from(Numbers::from(refusal))
    }
}

// Accepted, with these values.
pub(crate) fn accepted(values: &[u64]) -> Answer
    ensures { result ≡ row 0 values.now }
{
    Answer::from(Numbers::new(0, values))
}

// That it was accepted, or the refusal. Made part of its callers: a segment that is accepted costs some 30 instructions more otherwise
// (docs/SPEED.md).
#[inline(always)]
pub(crate) fn passed(answer: Result<(), Refusal>) -> Answer
    ensures { result ≡ told no_values (verdict_said answer) }
{
    match answer {
        Ok(()) => Answer {
            number: 0,
            values: [0; PLACES],
        },
        Err(refusal) => Answer::from(refusal),
    }
}

// What was accepted, by its values, or the refusal.
pub(crate) fn told<const N: usize>(answer: Result<[u64; N], Refusal>) -> Answer
    ensures { result ≡ told (λ vs. vs) (said_by (λ vs. vs) answer.entry) }
{
    match answer {
        Ok(values) => accepted(&values),
        Err(refusal) => Answer::from(refusal),
    }
}

// ---- the values of what was accepted

pub(crate) fn one_value(n: usize) -> [u64; 1]
    ensures { result ≡ one_value n }
{
    [n as u64]
}

// An option: its type, where it starts, and how many bytes it takes.
pub(crate) fn located_values(found: Found) -> [u64; 3]
    ensures { result ≡ located_values found }
{
    let Found { offset, head } = found;
    [head.code as u64, offset.0 as u64, head.size as u64]
}

// A range of a stream: where it begins and ends, and its number.
pub(crate) fn range_values(range: TpRange) -> [u64; 3]
    ensures { result ≡ range_values range }
{
    [range.start as u64, range.end as u64, range.number as u64]
}
