// The rules' number and values of a refusal, as data.
ghost use Rattle.std.specs.Prelude.{◌≡◌, [], ◌∷◌};
ghost use Rattle.numbers.specs.Refusals.{refusal};
ghost use Rattle.refusal.specs.Said.{said, string_said, source_number, laid};

use crate::{LengthSource, Refusal, StringError};

// As many values as a refusal has at most.
pub const PLACES: usize = 5;

// The number; its values stand in the first `count` places, and the others hold 0: fixed room, since nothing is allocated.
#[derive(Clone, Copy)]
pub struct Numbers {
    pub number: u64,
    pub count: usize,
    pub values: [u64; PLACES],
}

impl Numbers {
    // A number with its values: what those who have a number to tell make of it.
    pub fn new(number: u64, values: &[u64]) -> Self
        ensures { result ≡ laid (refusal number values.now) }
    {
        let here = values.len().min(PLACES);
        let mut places = [0; PLACES];
        places[..here].copy_from_slice(&values[..here]);
        Numbers {
            number,
            count: values.len(),
            values: places,
        }
    }
}

// The number of a length's source: 0 for the slice, 1 for the option's length.
impl From<LengthSource> for u64 {
    ghost from_gives = { λ source n. n ≡ source_number source };

    fn from(source: LengthSource) -> u64 {
        match source {
            LengthSource::Slice => 0,
            LengthSource::OptionLength => 1,
        }
    }
}

// The number and the values of a string's error: 9, which of the six it is, its numbers, and the place.
fn numbers_of_string(error: StringError, place: u64) -> Numbers
    ensures { result ≡ laid (string_said error place) }
{
    match error {
        StringError::MissingTerminator => Numbers::new(9, &[1, place]),
        StringError::ItemLengthExceedsRemaining {
            item_offset,
            item_length,
            remaining,
        } => Numbers::new(
            9,
            &[
                2,
                item_offset as u64,
                item_length as u64,
                remaining as u64,
                place,
            ],
        ),
        StringError::TrailingDataAfterTerminator { terminator_offset } => Numbers::new(
            9,
            &[3, terminator_offset as u64, place],
        ),
        StringError::EmptyKey { item_offset } => Numbers::new(9, &[4, item_offset as u64, place]),
        StringError::InvalidKeyByte {
            item_offset,
            byte_offset,
            value,
        } => Numbers::new(
            9,
            &[
                5,
                item_offset as u64,
                byte_offset as u64,
                value as u64,
                place,
            ],
        ),
        StringError::KeyContainsOnlyWhitespace { item_offset } => Numbers::new(
            9,
            &[6, item_offset as u64, place],
        ),
    }
}

// The number and the values of a refusal.
impl From<Refusal> for Numbers {
    ghost from_gives = { λ refusal n. n ≡ laid (said refusal) };

    fn from(refusal: Refusal) -> Numbers {
        match refusal {
            Refusal::UnexpectedEndOfSlice(needed) => Numbers::new(1, &[needed as u64]),
            Refusal::EntriesLengthTooLarge(length) => Numbers::new(2, &[length as u64]),
            Refusal::EntriesLengthUneven(length) => Numbers::new(3, &[length as u64]),
            Refusal::OptionsLengthTooLarge(length) => Numbers::new(4, &[length as u64]),
            Refusal::PayloadTooLarge(length) => Numbers::new(5, &[length as u64]),
            Refusal::PayloadLengthMismatch { expected, actual } => Numbers::new(
                6,
                &[expected as u64, actual as u64],
            ),
            Refusal::OptionLength {
                needed,
                had,
                source,
                place,
            } => Numbers::new(
                7,
                &[needed as u64, had as u64, u64::from(source), place as u64],
            ),
            Refusal::OptionLengthZero { place } => Numbers::new(8, &[place as u64]),
            Refusal::ConfigurationString { error, place } => numbers_of_string(error, place as u64),
            Refusal::UnknownOption { code, place } => Numbers::new(
                10,
                &[code as u64, place as u64],
            ),
            Refusal::UnknownEntry(code) => Numbers::new(11, &[code as u64]),
            Refusal::RunOutOfBounds {
                run,
                start,
                count,
                options,
            } => Numbers::new(
                12,
                &[run as u64, start as u64, count as u64, options as u64],
            ),
            Refusal::IndexTooLarge(length) => Numbers::new(13, &[length as u64]),
            Refusal::MessageId(id) => Numbers::new(14, &[id as u64]),
            Refusal::ClientId(client) => Numbers::new(15, &[client as u64]),
            Refusal::SessionZero => Numbers::new(16, &[]),
            Refusal::InterfaceVersion(version) => Numbers::new(17, &[version as u64]),
            Refusal::MessageType(code) => Numbers::new(18, &[code as u64]),
            Refusal::ReturnCode(code) => Numbers::new(19, &[code as u64]),
            Refusal::NothingThere => Numbers::new(20, &[]),
            Refusal::TableMisfit => Numbers::new(21, &[]),
            Refusal::FewSlots(slots) => Numbers::new(22, &[slots as u64]),
            Refusal::WrongProtocol { protocol, place } => Numbers::new(
                23,
                &[protocol as u64, place as u64],
            ),
            Refusal::NotASegment => Numbers::new(30, &[]),
            Refusal::SegmentTooBig {
                offset,
                length,
                max,
            } => Numbers::new(31, &[offset as u64, length as u64, max as u64]),
            Refusal::UnalignedTpPayloadLen { offset, length } => Numbers::new(
                32,
                &[offset as u64, length as u64],
            ),
            Refusal::ConflictingEnd { previous, new } => Numbers::new(
                33,
                &[previous as u64, new as u64],
            ),
            Refusal::BufferTooShort(needed) => Numbers::new(34, &[needed as u64]),
            Refusal::RangesFull => Numbers::new(35, &[]),
            Refusal::LimitTooLarge(limit) => Numbers::new(36, &[limit as u64]),
            Refusal::NotComplete => Numbers::new(37, &[]),
            Refusal::MalformedState => Numbers::new(38, &[]),
            Refusal::CountFull => Numbers::new(39, &[]),
        }
    }
}
