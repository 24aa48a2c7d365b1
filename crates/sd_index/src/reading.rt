// All options of an options part, in one pass: their offsets into the lent table, and whether each may stand.
ghost use Rattle.std.specs.Prelude.{◌≡◌, ◌≤◌, length};
ghost use Rattle.numbers.specs.Answers.{given};
ghost use Rattle.sd_format.specs.Frames.{filled, read_index};
ghost use Rattle.refusal.specs.Said.{count_said};
ghost use Rattle.sd_option.specs.Settings.{settings_said};
ghost use Rattle.sd_index.specs.Indexed.{Sweeps, Indexed, indexed};

use crate::lookup::option_at;
use crate::permission::permission_of;
use crate::slots::clear_slots;
use crate::{MAX_OPTIONS_LEN, Offset, Ordinal, SLOTS};
use refusal::{Refusal, moved};
use sd_option::Settings;
use sd_option::reading::{STRING_START, read_option_unscanned, scan};

// One pass over the options: the offset of each into its slot, from the first on; then 10 for the first that may not stand.
fn sweep(settings: Settings, options: &[u8], slots: &mut [u16; SLOTS]) -> Result<usize, Refusal>
    requires { length options.now ≤ 1388 }
    ensures { Sweeps (settings_said settings) options.now slots.old slots.new result }
{
    let mut at = Offset(0);
    let mut count = Ordinal(0);
    let mut permission = Ok(());
    // a walk: each option says where the next one is
    while at.0 < options.len() {
        let rest = option_at(options, at);
        // `read_option`, in its two halves
        let head = read_option_unscanned(settings, rest).map_err(|refusal| moved(refusal, at.0))?;
        scan(head, rest).map_err(|refusal| moved(refusal, at.0 + STRING_START))?;
        slots[count.0] = at.0 as u16;
        if permission.is_ok() {
            // the first that may not stand counts, and nothing is written where it may stand: quicker (docs/SPEED.md)
            if let Err(refusal) = permission_of(settings, head, at) {
                permission = Err(refusal);
            }
        }
        count = Ordinal(count.0 + 1);
        at = Offset(at.0 + head.size);
    }
    permission?;
    Ok(count.0)
}

// All options of an options part, with their offsets in the slots, and how many they are: 13, each option from the front, then 10 for the first
// unknown one that may not stand. Whatever was refused, the slots hold zeros then.
fn read_into(settings: Settings, options: &[u8], slots: &mut [u16; SLOTS]) -> Result<usize, Refusal>
    ensures told { count_said result ≡ given length (indexed (settings_said settings) options.now) }
    ensures left { slots.new ≡ filled (indexed (settings_said settings) options.now) }
{
    clear_slots(slots);
    if MAX_OPTIONS_LEN < options.len() {
        return Err(Refusal::IndexTooLarge(options.len()));
    }
    let answer = sweep(settings, options, slots);
    if answer.is_err() {
        clear_slots(slots);
    }
    answer
}

// The same with a lent table, of which the first 347 are the slots; 22 with fewer comes first.
pub fn read_options(settings: Settings, options: &[u8], table: &mut [u16]) -> Result<usize, Refusal>
    ensures { Indexed (indexed (settings_said settings) options.now) table.old table.new result }
{
    match table.first_chunk_mut() {
        Some(slots) => read_into(settings, options, slots),
        None => Err(Refusal::FewSlots(table.len())),
    }
}

// The index alone: 22, 13, then the options, unknown ones whether they may be discarded or not.
pub fn read_index(settings: Settings, options: &[u8], table: &mut [u16]) -> Result<usize, Refusal>
    ensures { Indexed (read_index (settings_said settings) options.now) table.old table.new result }
{
    let discarding = Settings {
        discard_unknown_option: true,
        ..settings
    };
    read_options(discarding, options, table)
}
