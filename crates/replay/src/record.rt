// The parts of a record.
ghost use Rattle.std.specs.Prelude.{◌≡◌, ◌<◌, get_or};
ghost use Rattle.numbers.specs.Bytes.{at32};
ghost use Rattle.replay.specs.Records.{word_of, value_of, check_of, answer_of, input_of, alike};

use big_endian::be32;
use refusal::{Numbers, PLACES};

// The byte at a place.
pub fn byte(s: &[u8], place: usize) -> u8
    ensures { result ≡ get_or s.now place 0 }
{
    s.get(place).copied().unwrap_or(0)
}

// The number of four bytes at a place.
#[tactic(auto, using(crate::proofs::Laws::word_at))]
pub fn number(s: &[u8], place: u16) -> u32
    ensures { result ≡ at32 s.now place }
{
    let at = place as usize;
    be32(
        byte(s, at),
        byte(s, at + 1),
        byte(s, at + 2),
        byte(s, at + 3),
    )
}

// The word at a place, counted from the first argument.
fn word(s: &[u8], place: u16) -> u32
    requires { place < 1000 }
    ensures { result ≡ word_of s.now place }
{
    number(s, 6 + 4 * place)
}

// An argument.
pub fn argument(s: &[u8], place: u8) -> u32
    ensures { result ≡ word_of s.now place }
{
    word(s, place as u16)
}

// A value of the answer, 0 past the last.
fn value(s: &[u8], place: u8) -> u64
    ensures { result ≡ value_of s.now place }
{
    if place < byte(s, 4) {
        return word(s, byte(s, 3) as u16 + place as u16) as u64;
    }
    0
}

// What is compared beyond the answer.
pub fn check(s: &[u8], place: u8) -> u32
    ensures { result ≡ check_of s.now place }
{
    word(s, byte(s, 3) as u16 + byte(s, 4) as u16 + place as u16)
}

// The answer.
pub fn recorded(s: &[u8]) -> Numbers
    ensures { result ≡ answer_of s.now }
{
    Numbers {
        number: byte(s, 2) as u64,
        count: byte(s, 4) as usize,
        values: [
            value(s, 0),
            value(s, 1),
            value(s, 2),
            value(s, 3),
            value(s, 4),
        ],
    }
}

// The input; none where the words reach past the record's end.
pub fn input(s: &[u8]) -> &[u8]
    ensures { result.now ≡ input_of s.now }
{
    let words = byte(s, 3) as usize + byte(s, 4) as usize + byte(s, 5) as usize;
    let at = 6 + 4 * words;
    s.get(at..).unwrap_or(&[])
}

// Whether this number with these values is the recorded answer, however many it says that count.
pub fn same(recorded: Numbers, number: u64, values: [u64; PLACES]) -> bool
    ensures { result ≡ alike recorded number values }
{
    recorded.number == number && recorded.values == values
}
