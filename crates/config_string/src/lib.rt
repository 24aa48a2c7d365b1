// The check of a configuration string: items of a length byte and that many bytes, closed by a zero length byte, which must be the last byte.
// One function for each rule, all with the same answer; an item's bytes are looked at once, and no further than its key.
// Below, `at` is the place of the item's length byte, which the errors give and at which they are told; a string that does not end is refused at
// its own end.
#![tactic(auto)]

mod classes; // classes.rt: the table of byte classes

ghost use Rattle.std.specs.Prelude.{◌≡◌, ◌+◌, ◌≤◌, length, IfOk};
ghost use Rattle.numbers.specs.Answers.{refused, given, part, verdict};
ghost use Rattle.refusal.specs.Said.{string_said, said_by, verdict_said, count_said};
ghost use Rattle.sd_format.specs.Strings.{key_of, judge_key, judge_item, closed, read_string};
ghost use Rattle.config_string.specs.Keys.{judge_end};
ghost use Rattle.config_string.specs.Items.{next_item, past};

use classes::{Classes, OUTSIDE, SPACE};
use refusal::{Refusal, StringError};

// A string refused at a place by one of the six errors.
fn refuse(error: StringError, place: usize) -> Result<(), Refusal>
    ensures { verdict_said result ≡ refused (string_said error place) }
{
    Err(Refusal::ConfigurationString { error, place })
}

// A key that ends after `len` bytes, each of them in 0x20 to 0x7e: it is neither empty nor all spaces.
#[tactic(auto, using(numbers::proofs::AnswerLaws::when_hit, numbers::proofs::AnswerLaws::when_pass), unfolding(crate::specs::Keys::judge_end))]
fn check_end_of_key(at: usize, len: usize, blank: bool) -> Result<(), Refusal>
    ensures { verdict_said result ≡ judge_end at len blank }
{
    if len == 0 {
        return refuse(StringError::EmptyKey { item_offset: at }, at);
    }
    if blank {
        return refuse(
            StringError::KeyContainsOnlyWhitespace { item_offset: at },
            at,
        );
    }
    Ok(())
}

// The key of an item, what precedes the first `=`: empty, first bad byte, all spaces.
#[tactic(auto, using(crate::proofs::KeyLaws::judging))]
fn check_key(classes: &Classes, at: usize, item: &[u8]) -> Result<(), Refusal>
    ensures { verdict_said result ≡ judge_key at (key_of item.now) }
{
    let mut seen = SPACE; // as long as every byte is one
    for (i, &b) in item.iter().enumerate() {
        let class = classes.class_of(b);
        if class < SPACE {
            if class == OUTSIDE {
                return refuse(
                    StringError::InvalidKeyByte {
                        item_offset: at,
                        byte_offset: i,
                        value: b,
                    },
                    at,
                );
            }
            return check_end_of_key(at, i, seen == SPACE);
        }
        seen |= class;
    }
    check_end_of_key(at, item.len(), seen == SPACE)
}

// An item, with what follows its length byte: it is no longer than that, then its key.
#[tactic(auto, using(numbers::proofs::AnswerLaws::when_hit, numbers::proofs::AnswerLaws::when_pass), unfolding(sd_format::specs::Strings::judge_item))]
fn check_item(classes: &Classes, at: usize, size: u8, rest: &[u8]) -> Result<(), Refusal>
    ensures { verdict_said result ≡ judge_item at size rest.now }
{
    let n = size as usize;
    if rest.len() < n {
        // written out and not by `refuse`: quicker (docs/SPEED.md)
        return Err(Refusal::ConfigurationString {
            error: StringError::ItemLengthExceedsRemaining {
                item_offset: at,
                item_length: size,
                remaining: rest.len(),
            },
            place: at,
        });
    }
    check_key(classes, at, &rest[..n])
}

// The terminator, with what follows it: nothing may.
#[tactic(auto, using(sd_format::proofs::StringLaws::closed_last, sd_format::proofs::StringLaws::closed_trailing), unfolding(numbers::specs::Answers::given))]
fn check_terminator(at: usize, rest: &[u8]) -> Result<(), Refusal>
    ensures { verdict_said result ≡ verdict (closed at rest.now) }
{
    if rest.is_empty() {
        return Ok(());
    }
    refuse(
        StringError::TrailingDataAfterTerminator {
            terminator_offset: at,
        },
        at,
    )
}

// A whole configuration string: its items from the front, up to the first that is refused, and the terminator.
#[tactic(auto, using(crate::proofs::ItemLaws::walking), unfolding(numbers::specs::Answers::given))]
pub fn check_string(s: &[u8]) -> Result<(), Refusal>
    ensures { verdict_said result ≡ verdict (read_string s.now) }
{
    let classes = Classes::new();
    let mut at: usize = 0; // counted, since the answers tell it
    while let Some(&size) = s.get(at) {
        let rest = &s[at + 1..];
        if size == 0 {
            return check_terminator(at, rest);
        }
        check_item(&classes, at, size, rest)?;
        at += 1 + size as usize;
    }
    refuse(StringError::MissingTerminator, at)
}

// ---- a cursor over the items: a place in the string, in by value and back

// The bytes of the item at a place of a string; 20 at the terminator and with no bytes left.
#[tactic(auto, using(crate::proofs::ItemLaws::finding))]
pub fn item_at(s: &[u8], at: usize) -> Result<&[u8], Refusal>
    ensures said { said_by (λ item. item.now) result ≡ next_item s.now at }
    ensures inside { IfOk result (λ item. at + 1 + length item.now ≤ length s.now) }
{
    let Some(&size) = s.get(at) else {
        return Err(Refusal::NothingThere);
    };
    if size == 0 {
        return Err(Refusal::NothingThere);
    }
    let rest = &s[at + 1..];
    check_item(&Classes::new(), at, size, rest)?;
    Ok(&rest[..size as usize])
}

// Where the item behind that one stands.
#[tactic(auto, unfolding(numbers::specs::Answers::given))]
pub fn next_item(s: &[u8], at: usize) -> Result<usize, Refusal>
    ensures { count_said result ≡ given (past at) (next_item s.now at) }
{
    let item = item_at(s, at)?;
    Ok(at + 1 + item.len())
}

// The bytes of that item, as a part of the string; none on a refusal.
pub fn item_part(s: &[u8], at: usize) -> &[u8]
    ensures { result.now ≡ part (next_item s.now at) }
{
    item_at(s, at).unwrap_or_default()
}
