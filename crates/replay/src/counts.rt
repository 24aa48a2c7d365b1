// How many there were, by number.
ghost use Rattle.std.specs.Prelude.{◌≡◌};
ghost use Rattle.replay.specs.Counts.{counted};

// Counts one at a place, as long as it fits; a place that the counts have not changes nothing.
pub fn count(counts: &mut [u32], place: u8)
    ensures { counts.new ≡ counted counts.old place }
{
    let i = place as usize;
    // By index: of a slice whose element `get_mut` lent, no element is known after it.
    if i < counts.len() {
        counts[i] = counts[i].saturating_add(1);
    }
}
