// Lookup: the option of a number, by a table of byte offsets. It writes nothing, and whatever the table, the count and the number are, there
// is an answer.
ghost use Rattle.std.specs.Prelude.{◌≡◌, drop};
ghost use Rattle.sd_index.specs.Found.{found_said, look_up_told};

use crate::{Offset, Ordinal, SLOTS};
use refusal::Refusal;
use sd_option::PLAIN;
use sd_option::reading::{OptionHead, read_option_unscanned};

// An option that was found: where it starts in the options part, and what is told of it.
#[derive(Clone, Copy)]
pub struct Found {
    pub offset: Offset,
    pub head: OptionHead,
}

// The bytes of the options part from an offset on, so that the functions of `sd_option` can be asked about the option there; none past the end.
pub fn option_at(options: &[u8], offset: Offset) -> &[u8]
    ensures { result.now ≡ drop offset.0 options.now }
{
    options.get(offset.0..).unwrap_or(&[])
}

// The option of number `ordinal` among `count`, which stands beside the table as C lends both: 20 at or past the count; 21 past the table's 347 slots
// or the slots that were lent, and where no option stands at the slot's offset, its configuration string not scanned again.
#[tactic(auto, using(crate::proofs::FoundLaws::past_count, crate::proofs::FoundLaws::past_slots, crate::proofs::FoundLaws::past_table))]
pub fn look_up(
    options: &[u8],
    table: &[u16],
    count: usize,
    ordinal: Ordinal,
) -> Result<Found, Refusal>
    ensures { found_said result ≡ look_up_told options.now table.now count ordinal.0 }
{
    let place = ordinal.0;
    if count <= place {
        return Err(Refusal::NothingThere);
    }
    if SLOTS <= place {
        return Err(Refusal::TableMisfit);
    }
    let Some(slot) = table.get(place) else {
        return Err(Refusal::TableMisfit);
    };
    let offset = Offset(*slot as usize);
    match read_option_unscanned(PLAIN, option_at(options, offset)) {
        Ok(head) => Ok(Found { offset, head }),
        Err(_) => Err(Refusal::TableMisfit),
    }
}
