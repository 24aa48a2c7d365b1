// The lent table's slots.
ghost use Rattle.std.specs.Prelude.{◌≡◌};
ghost use Rattle.sd_index.specs.Indexed.{cleared};

use crate::SLOTS;

// Zeros in the 347 slots of a lent table, as after a refusal; a table with fewer stays as it is.
pub fn clear_slots(table: &mut [u16])
    ensures { table.new ≡ cleared table.old }
{
    if let Some(slots) = table.first_chunk_mut::<SLOTS>() {
        slots.fill(0);
    }
}
