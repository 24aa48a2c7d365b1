// Ranges of a payload that is being joined: which touch, how far they reach, and the joining step over an array by value, of which the first
// `count` are held. (tp_range.rs)
#![tactic(auto)]

ghost use Rattle.std.specs.Prelude.{◌≡◌, ◌≤◌, ◌<◌, length, take, ltb};
ghost use Rattle.std.specs.List.{position_or_len};
ghost use Rattle.tp_machine.specs.Ranges.{touch, hull_of, inserted, some_touch, greatest_end};
ghost use Rattle.tp_machine.specs.Machine.{most};
ghost use Rattle.tp_range.specs.Joining.{placed, joined_in};
ghost use Rattle.tp_range.specs.Ordered.{rising, backward};

use tp_machine::TpRange;

// How many ranges are held at most.
pub const MAX_RANGES: usize = 64;

// A range that was never used.
pub const UNUSED: TpRange = TpRange {
    start: 0,
    end: 0,
    number: 0,
};

// What joining gives: the new array and how many it holds. An array by value, in and out: the rules' paper names this form.
#[derive(Clone, Copy)]
pub struct Joined {
    pub ranges: [TpRange; MAX_RANGES],
    pub count: usize,
}

// Those of an array that are held: a count past its end means all of them.
pub fn held(ranges: &[TpRange; MAX_RANGES], count: usize) -> &[TpRange]
    ensures { result.now ≡ take count ranges.now }
{
    &ranges[..count.min(MAX_RANGES)]
}

// Whether neither ends before the other begins.
#[tactic(auto, unfolding(tp_machine::specs::Ranges::touch))]
fn touches(a: TpRange, b: TpRange) -> bool
    ensures { result ≡ touch a b }
{
    a.start <= b.end && b.start <= a.end
}

// The least range that holds both, with the larger number.
#[tactic(auto, unfolding(tp_machine::specs::Ranges::hull_of))]
fn hull(a: TpRange, b: TpRange) -> TpRange
    ensures { result ≡ hull_of a b }
{
    TpRange {
        start: a.start.min(b.start),
        end: a.end.max(b.end),
        number: a.number.max(b.number),
    }
}

// How many stand before the first that begins behind `start`.
fn place_of(held: &[TpRange], start: u32) -> usize
    ensures first { result ≡ position_or_len (λ r. ltb start r.start) held.now }
    ensures among { result ≤ length held.now }
{
    held.iter()
        .position(|r| start < r.start)
        .unwrap_or(held.len())
}

// `new` before the first of the first `count` that begins behind it, and those from there on one place further.
fn insert(mut ranges: [TpRange; MAX_RANGES], count: usize, new: TpRange) -> [TpRange; MAX_RANGES]
    requires { count < most }
    ensures { result ≡ placed ranges (inserted new (take count ranges)) }
{
    let at = place_of(held(&ranges, count), new.start);
    ranges.copy_within(at..count, at + 1);
    ranges[at] = new;
    ranges
}

// The joining step: the ranges that `new` does not touch, in their order, and before the first of them that begins behind it `new` grown by those
// that it touches. The places behind them stay as they were. `None` where they would be too many.
pub fn join(ranges: [TpRange; MAX_RANGES], count: usize, new: TpRange) -> Option<Joined>
    ensures { result ≡ joined_in ranges count new }
{
    let mut out = ranges;
    let mut kept = 0; // where the next one goes: they move up in an array of their own
    let mut grown = new;
    for r in held(&ranges, count) {
        if touches(new, *r) {
            grown = hull(grown, *r);
        } else {
            out[kept] = *r;
            kept += 1;
        }
    }
    if kept < MAX_RANGES {
        return Some(Joined {
            ranges: insert(out, kept, grown),
            count: kept + 1,
        });
    }
    None
}

// Whether each begins behind the end of the one before it, and none ends before it begins: then no two touch.
#[tactic(auto, using(crate::proofs::FoldLaws::ahead), unfolding(crate::specs::Ordered::rising))]
fn in_order(held: &[TpRange]) -> bool
    ensures { result ≡ rising backward 0 held.now }
{
    let mut low = 0;
    for r in held {
        if u64::from(r.start) < low || r.end < r.start {
            return false;
        }
        low = u64::from(r.end) + 1;
    }
    true
}

// Whether two touch, in whatever order they stand: each is tried with those behind it.
#[tactic(auto, using(crate::proofs::FoldLaws::any_is), unfolding(tp_machine::specs::Ranges::some_touch))]
fn two_touch(held: &[TpRange]) -> bool
    ensures { result ≡ some_touch held.now }
{
    let mut left = held;
    // taken off the front one by one, since each is tried with what is left
    while let Some((r, behind)) = left.split_first() {
        if behind.iter().any(|other| touches(*r, *other)) {
            return true;
        }
        left = behind;
    }
    false
}

// Whether two touch. Of ranges in order, as joining keeps them, one pass tells.
#[tactic(auto, using(crate::proofs::OrderLaws::rising_apart))]
pub fn some_touch(held: &[TpRange]) -> bool
    ensures { result ≡ some_touch held.now }
{
    !in_order(held) && two_touch(held)
}

// The greatest end; 0 of none.
#[tactic(auto, using(crate::proofs::FoldLaws::greatest_is))]
pub fn greatest_end(held: &[TpRange]) -> u32
    ensures { result ≡ greatest_end held.now }
{
    held.iter().fold(0, |end, r| end.max(r.end))
}
