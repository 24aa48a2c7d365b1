// The sizes of a payload: its two length fields against each other, the limits and the bytes that are there.
ghost use Rattle.std.specs.Prelude.{◌≡◌, ◌≤◌};
ghost use Rattle.refusal.specs.Said.{verdict_said, count_said};
ghost use Rattle.sd_payload.specs.Sized.{sized, whole};

use big_endian::be32;
use refusal::Refusal;
use sd_entry::ENTRY_LEN;
use sd_index::MAX_OPTIONS_LEN;

// Bytes of the smallest payload: four opening bytes and two length fields.
pub const MIN_PAYLOAD_LEN: usize = 12;

// Where the entries stand: behind the opening bytes and their own length.
pub const ENTRIES_START: usize = 8;

// What the entries and the whole payload have at most.
pub const MAX_ENTRIES_LEN: usize = 1388;

pub const MAX_PAYLOAD_LEN: usize = 1400;

// The whole payload's length, by its two parts: 5, 1, 6.
#[tactic(auto, using(crate::proofs::Tests::tests), unfolding(crate::specs::Sized::whole))]
fn judge_whole(had: usize, entries: usize, options: usize) -> Result<(), Refusal>
    requires { (entries ≤ 1388) × (options ≤ 1388) }
    ensures { verdict_said result ≡ whole had entries options }
{
    let end = MIN_PAYLOAD_LEN + entries + options;
    if MAX_PAYLOAD_LEN < end {
        return Err(Refusal::PayloadTooLarge(end as u32));
    }
    if had < end {
        return Err(Refusal::UnexpectedEndOfSlice(end));
    }
    if had != end {
        return Err(Refusal::PayloadLengthMismatch {
            expected: end,
            actual: had,
        });
    }
    Ok(())
}

// The length of the entries part: 1, 2, 3, 1, 4, 5, 1, 6. The options part is all that is left behind its own length.
#[tactic(auto, using(crate::proofs::SizeLaws::sized_tests, crate::proofs::Tests::tests), unfolding(crate::specs::Sized::whole))]
pub fn judge_sizes(payload: &[u8]) -> Result<usize, Refusal>
    ensures { count_said result ≡ sized payload.now }
{
    let had = payload.len();
    if had < MIN_PAYLOAD_LEN {
        return Err(Refusal::UnexpectedEndOfSlice(MIN_PAYLOAD_LEN));
    }
    let entries = be32(payload[4], payload[5], payload[6], payload[7]);
    let entries_len = entries as usize;
    if MAX_ENTRIES_LEN < entries_len {
        return Err(Refusal::EntriesLengthTooLarge(entries));
    }
    if entries_len % ENTRY_LEN != 0 {
        return Err(Refusal::EntriesLengthUneven(entries));
    }
    let from = MIN_PAYLOAD_LEN + entries_len;
    if had < from {
        return Err(Refusal::UnexpectedEndOfSlice(from));
    }
    let at = ENTRIES_START + entries_len;
    let options = be32(
        payload[at],
        payload[at + 1],
        payload[at + 2],
        payload[at + 3],
    );
    let options_len = options as usize;
    if MAX_OPTIONS_LEN < options_len {
        return Err(Refusal::OptionsLengthTooLarge(options));
    }
    judge_whole(had, entries_len, options_len)?;
    Ok(entries_len)
}
