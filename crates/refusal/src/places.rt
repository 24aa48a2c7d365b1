// The place that a refusal tells, counted from further to the front.
ghost use Rattle.std.specs.Prelude.{◌≡◌, ◌+◌};
ghost use Rattle.refusal.specs.Said.{said, capped, moved_capped};

use crate::Refusal;

// A place counted from `by` bytes further to the front, at most the largest `usize`.
fn moved_place(place: usize, by: usize) -> usize
    ensures { result ≡ capped (by + place) }
{
    by.saturating_add(place)
}

// The same refusal, its place counted from `by` bytes further to the front; one that tells no place stays as it is.
pub fn moved(refusal: Refusal, by: usize) -> Refusal
    ensures { said result ≡ moved_capped by (said refusal) }
{
    match refusal {
        Refusal::OptionLength {
            needed,
            had,
            source,
            place,
        } => Refusal::OptionLength {
            needed,
            had,
            source,
            place: moved_place(place, by),
        },
        Refusal::OptionLengthZero { place } => Refusal::OptionLengthZero {
            place: moved_place(place, by),
        },
        Refusal::ConfigurationString { error, place } => Refusal::ConfigurationString {
            error,
            place: moved_place(place, by),
        },
        Refusal::UnknownOption { code, place } => Refusal::UnknownOption {
            code,
            place: moved_place(place, by),
        },
        Refusal::WrongProtocol { protocol, place } => Refusal::WrongProtocol {
            protocol,
            place: moved_place(place, by),
        },
        _ => refusal,
    }
}
