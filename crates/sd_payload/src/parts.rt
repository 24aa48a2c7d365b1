// The two parts of a payload that was read, as parts of the caller's bytes. The answer of the reading goes in, so that a refusal hands back an
// empty part.
ghost use Rattle.std.specs.Prelude.{◌≡◌};
ghost use Rattle.refusal.specs.Said.{count_said};
ghost use Rattle.sd_format.specs.Payload.{entries_part as entries_of, options_part as options_of};
ghost use Rattle.sd_payload.specs.Parts.{settled, handed};

use crate::reading::SdPayload;
use crate::sizes::{ENTRIES_START, MIN_PAYLOAD_LEN, judge_sizes};
use refusal::Refusal;

// The length of the entries part of a payload that was read; the refusal where it was refused.
fn sizes_read(payload: &[u8], answer: Result<SdPayload, Refusal>) -> Result<usize, Refusal>
    ensures { count_said result ≡ settled answer payload.now }
{
    answer.and_then(|_| judge_sizes(payload))
}

// Both parts: bytes 8 to 8 plus the length of the entries, and the bytes behind the options length.
#[tactic(auto, using(crate::proofs::PartLaws::parts))]
fn both_parts(payload: &[u8], answer: Result<SdPayload, Refusal>) -> (&[u8], &[u8])
    ensures entries { result.0.now ≡ handed answer payload.now (entries_of payload.now) }
    ensures options { result.1.now ≡ handed answer payload.now (options_of payload.now) }
{
    match sizes_read(payload, answer) {
        Ok(entries_len) => (
            &payload[ENTRIES_START..ENTRIES_START + entries_len],
            &payload[MIN_PAYLOAD_LEN + entries_len..],
        ),
        Err(_) => (&[], &[]),
    }
}

// The entries part.
pub fn entries_part(payload: &[u8], answer: Result<SdPayload, Refusal>) -> &[u8]
    ensures { result.now ≡ handed answer payload.now (entries_of payload.now) }
{
    both_parts(payload, answer).0
}

// The options part.
pub fn options_part(payload: &[u8], answer: Result<SdPayload, Refusal>) -> &[u8]
    ensures { result.now ≡ handed answer payload.now (options_of payload.now) }
{
    both_parts(payload, answer).1
}
