// The reading of one option from the front of a slice: first its frame, then its kind.
ghost use Rattle.std.specs.Prelude.{◌≡◌, ◌+◌, ◌≤◌, drop, length, IfOk};
ghost use Rattle.numbers.specs.Answers.{given, part};
ghost use Rattle.sd_format.specs.Options.{has};
ghost use Rattle.sd_format.specs.Kinds.{kind_of, judge_length};
ghost use Rattle.sd_format.specs.Frames.{frame, one_option, read_option};
ghost use Rattle.numbers.specs.Refusals.{option_length};
ghost use Rattle.refusal.specs.Said.{said, source_number, verdict_said, count_said};
ghost use Rattle.sd_option.specs.Kinds.{length_said};
ghost use Rattle.sd_option.specs.Settings.{settings_said};
ghost use Rattle.sd_option.specs.Reading.{body_length, body_of, behind_type, head_of, option_said, carried, protocol_verdict, string_verdict};

use crate::Settings;
use crate::kinds::{KindRow, OptionKind, row_of, takes};
use big_endian::be16;
use config_string::check_string;
use refusal::{LengthSource, Refusal, moved};

// The length and the type, which stand before the bytes that the length counts.
pub const FRAME_LEN: usize = 3;

// Where a configuration string begins: behind the first of those bytes.
pub const STRING_START: usize = 4;

// The bit of the first byte that says that an option may be discarded where it is not known.
pub const DISCARDABLE: u8 = 0x80;

// What is told of an option: its type code, the discardable bit, and how many bytes it takes, its length and its type among them.
#[derive(Clone, Copy)]
pub struct OptionHead {
    pub code: u8,
    pub discardable: bool,
    pub size: usize,
}

// Another length than the one that is needed, told at the option's first byte.
fn wrong_length(needed: usize, had: usize, source: LengthSource) -> Refusal
    ensures { said result ≡ option_length needed had (source_number source) }
{
    Refusal::OptionLength {
        needed,
        had,
        source,
        place: 0,
    }
}

// The length of the option in front of `s`: how many bytes follow its type.
#[tactic(auto, using(numbers::proofs::AnswerLaws::when_hit, numbers::proofs::AnswerLaws::when_pass, crate::proofs::ReadingLaws::front_length), unfolding(sd_format::specs::Frames::frame, numbers::specs::Bytes::at16, numbers::specs::Answers::given))]
fn framed_length(s: &[u8]) -> Result<usize, Refusal>
    ensures said { count_said result ≡ given body_length (frame s.now) }
    ensures some { IfOk result (λ n. 1 ≤ n) }
    ensures within { IfOk result (λ n. 3 + n ≤ length s.now) }
{
    let had = s.len();
    if had < FRAME_LEN {
        return Err(wrong_length(FRAME_LEN, had, LengthSource::Slice));
    }
    let length = be16(s[0], s[1]) as usize;
    if length == 0 {
        return Err(Refusal::OptionLengthZero { place: 0 });
    }
    let needed = FRAME_LEN + length;
    if had < needed {
        return Err(wrong_length(needed, had, LengthSource::Slice));
    }
    Ok(length)
}

// Whether the length is what a kind asks.
#[tactic(auto, using(numbers::proofs::AnswerLaws::when_hit, numbers::proofs::AnswerLaws::when_pass), unfolding(sd_format::specs::Kinds::judge_length))]
fn judged_length(asked: Option<usize>, had: usize) -> Result<(), Refusal>
    ensures { verdict_said result ≡ judge_length (length_said asked) had }
{
    match asked {
        Some(needed) if had != needed => Err(wrong_length(needed, had, LengthSource::OptionLength)),
        _ => Ok(()),
    }
}

// Whether an option of this row may carry the protocol, which stands at this place, if it has one and the setting asks.
#[tactic(auto, using(numbers::proofs::AnswerLaws::when_hit, numbers::proofs::AnswerLaws::when_pass))]
fn judged_protocol(
    settings: Settings,
    row: KindRow,
    protocol: u8,
    place: usize,
) -> Result<(), Refusal>
    ensures { verdict_said result ≡ carried (settings_said settings) row.has_protocol row.code protocol place }
{
    if !row.has_protocol {
        return Ok(()); // a test of its own: quicker (docs/SPEED.md)
    }
    if settings.strict && !takes(row.code, protocol) {
        return Err(Refusal::WrongProtocol { protocol, place });
    }
    Ok(())
}

// Whether the byte has the discardable bit.
fn is_discardable(first: u8) -> bool
    ensures { result ≡ has first 0x80 }
{
    first & DISCARDABLE != 0
}

// One option in front of `s`, its configuration string not scanned. The reading of all options calls this and `scan` itself: two small
// functions are made part of its loop, one large one is not (docs/SPEED.md).
pub fn read_option_unscanned(settings: Settings, s: &[u8]) -> Result<OptionHead, Refusal>
    ensures { option_said result ≡ given head_of (one_option (protocol_verdict (settings_said settings)) s.now) }
{
    let length = framed_length(s)?;
    let code = s[2];
    let row = row_of(code);
    judged_length(row.exact_len, length)?;
    judged_protocol(settings, row, s[length], length)?; // two bytes stand behind a protocol
    Ok(OptionHead {
        code,
        discardable: is_discardable(s[FRAME_LEN]),
        size: FRAME_LEN + length,
    })
}

// The string of a configuration option that takes `size` bytes; none where `s` has not so many.
fn string_of(s: &[u8], size: usize) -> &[u8]
    ensures { result.now ≡ drop 1 (behind_type s.now size) }
{
    s.get(STRING_START..size).unwrap_or(&[])
}

// The string of a configuration option scanned; any other option has none. A place is counted from the string's first byte, and whoever asks moves
// it: so this stays small enough for the loop (docs/SPEED.md).
pub fn scan(head: OptionHead, s: &[u8]) -> Result<(), Refusal>
    ensures { verdict_said result ≡ string_verdict (kind_of head.code) (behind_type s.now head.size) }
{
    match OptionKind::from(head.code) {
        OptionKind::Configuration => check_string(string_of(s, head.size)),
        _ => Ok(()),
    }
}

// One option in front of `s`.
#[tactic(auto, using(crate::proofs::ReadingLaws::first_refused))]
pub fn read_option(settings: Settings, s: &[u8]) -> Result<OptionHead, Refusal>
    ensures { option_said result ≡ given head_of (read_option (settings_said settings) s.now) }
{
    let head = read_option_unscanned(settings, s)?;
    scan(head, s).map_err(|refusal| moved(refusal, STRING_START))?;
    Ok(head)
}

// The bytes after the type of the option in front of `s`; none where it is refused.
#[tactic(auto, using(crate::proofs::ReadingLaws::size_some, crate::proofs::ReadingLaws::size_within, crate::proofs::ReadingLaws::body_there, crate::proofs::ReadingLaws::body_none))]
pub fn option_bytes(settings: Settings, s: &[u8]) -> &[u8]
    ensures { result.now ≡ part (given body_of (read_option (settings_said settings) s.now)) }
{
    match read_option(settings, s) {
        Ok(head) => &s[FRAME_LEN..head.size],
        Err(_) => &[],
    }
}
