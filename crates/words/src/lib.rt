// A refusal in words: the rules' number, and its values with what they are. As in `print`, no contract says what is written: the logic has no word
// for it. The Rust crate has the same words (bindings/rust/src/refusal.rs), and a test there compares them.
#![tactic(auto)]

use refusal::{LengthSource, Numbers, Refusal, StringError};
use std::fmt;

// What is wrong with a configuration string. Places count from the string's first byte.
#[derive(Clone, Copy)]
struct StringInWords(StringError);

impl fmt::Display for StringInWords {
    fn fmt<W: fmt::Write>(&self, f: &mut fmt::Formatter<W>) -> fmt::Result {
        match self.0 {
            StringError::MissingTerminator => write!(f, "it ends without a closing zero byte"),
            StringError::ItemLengthExceedsRemaining {
                item_offset,
                item_length,
                remaining,
            } => write!(
                f,
                "the item at byte {item_offset} says that {item_length} bytes follow, but {remaining} are left"
            ),
            StringError::TrailingDataAfterTerminator { terminator_offset } => write!(
                f,
                "bytes follow the closing zero byte, which is byte {terminator_offset}"
            ),
            StringError::EmptyKey { item_offset } => write!(
                f,
                "the item at byte {item_offset} has nothing before its '='"
            ),
            StringError::InvalidKeyByte {
                item_offset,
                byte_offset,
                value,
            } => write!(
                f,
                "in the item at byte {item_offset}, byte {byte_offset} of the key is 0x{value:02x}; keys are 0x20 to 0x7e"
            ),
            StringError::KeyContainsOnlyWhitespace { item_offset } => write!(
                f,
                "the item at byte {item_offset} has a key of spaces only"
            ),
        }
    }
}

// Any refusal: its number, and its words.
#[derive(Clone, Copy)]
pub struct InWords(pub Refusal);

impl fmt::Display for InWords {
    fn fmt<W: fmt::Write>(&self, f: &mut fmt::Formatter<W>) -> fmt::Result {
        let number = Numbers::from(self.0).number;
        write!(f, "refused, {number}: ")?;
        match self.0 {
            Refusal::UnexpectedEndOfSlice(needed) => write!(
                f,
                "the bytes end too soon: at least {needed} are needed"
            ),
            Refusal::EntriesLengthTooLarge(length) => write!(
                f,
                "the payload says that its entries take {length} bytes; at most 1388 fit"
            ),
            Refusal::EntriesLengthUneven(length) => write!(
                f,
                "the payload says that its entries take {length} bytes; an entry takes 16, and this is no multiple of it"
            ),
            Refusal::OptionsLengthTooLarge(length) => write!(
                f,
                "the payload says that its options take {length} bytes; at most 1388 fit"
            ),
            Refusal::PayloadTooLarge(length) => write!(
                f,
                "by its own length fields the payload takes {length} bytes; at most 1400 are allowed"
            ),
            Refusal::PayloadLengthMismatch { expected, actual } => write!(
                f,
                "by its own length fields the payload takes {expected} bytes, but {actual} were handed in"
            ),
            Refusal::OptionLength {
                needed,
                had,
                source: LengthSource::Slice,
                place,
            } => write!(
                f,
                "option at byte {place} of the options: it needs {needed} bytes, but only {had} are left"
            ),
            Refusal::OptionLength {
                needed,
                had,
                source: LengthSource::OptionLength,
                place,
            } => write!(
                f,
                "option at byte {place} of the options: its length field says {had}, but an option of its type has {needed}"
            ),
            Refusal::OptionLengthZero { place } => write!(
                f,
                "option at byte {place} of the options: its length field is 0; it is at least 1"
            ),
            Refusal::ConfigurationString { error, place } => write!(
                f,
                "configuration string wrong at byte {place} of the options: {}",
                StringInWords(error)
            ),
            Refusal::UnknownOption { code, place } => write!(
                f,
                "option of unknown type 0x{code:02x} may not be discarded, by byte {place} of the options; the discard setting would pass it"
            ),
            Refusal::WrongProtocol { protocol, place } => write!(
                f,
                "the transport protocol is 0x{protocol:02x}, by byte {place} of the options; the strict setting takes 0x06 (TCP) and 0x11 (UDP), for multicast 0x11 alone"
            ),
            Refusal::UnknownEntry(code) => write!(
                f,
                "an entry has the unknown type 0x{code:02x}; known are 0x00, 0x01, 0x06 and 0x07"
            ),
            Refusal::RunOutOfBounds {
                run,
                start,
                count,
                options,
            } => write!(
                f,
                "run {run} of an entry starts at option {start}, counted from 0, and takes {count}, but the payload has {options}"
            ),
            Refusal::IndexTooLarge(length) => write!(
                f,
                "{length} bytes of options were handed in for an index; at most 1388 fit"
            ),
            Refusal::MessageId(id) => write!(
                f,
                "the message id is 0x{id:08x}; service discovery has 0xffff8100"
            ),
            Refusal::ClientId(client) => write!(
                f,
                "the client id is 0x{client:04x}; service discovery has 0"
            ),
            Refusal::SessionZero => write!(
                f,
                "the session id is 0; service discovery counts from 1"
            ),
            Refusal::InterfaceVersion(version) => write!(
                f,
                "the interface version is {version}; service discovery has 1"
            ),
            Refusal::MessageType(code) => write!(
                f,
                "the message type is 0x{code:02x}; service discovery has 0x02, a notification"
            ),
            Refusal::ReturnCode(code) => write!(
                f,
                "the return code is 0x{code:02x}; service discovery has 0x00"
            ),
            Refusal::NothingThere => write!(f, "there is no option or entry at this place"),
            Refusal::TableMisfit => write!(
                f,
                "the offset table does not belong to these options: it is another payload's, or was changed"
            ),
            Refusal::FewSlots(slots) => write!(
                f,
                "the lent offset table has {slots} slots; 347 are needed"
            ),
            Refusal::NotASegment => write!(
                f,
                "not one TP segment: under 20 bytes, or a length field that is not the byte count less 8, or a protocol version other than 1, or no TP message type"
            ),
            Refusal::SegmentTooBig {
                offset,
                length,
                max,
            } => write!(
                f,
                "a segment of {length} bytes at offset {offset} passes the stream's payload limit of {max}"
            ),
            Refusal::UnalignedTpPayloadLen { offset, length } => write!(
                f,
                "a segment of {length} bytes at offset {offset} says that more follows; its length is then a multiple of 16"
            ),
            Refusal::ConflictingEnd { previous, new } if new < previous => write!(
                f,
                "a final segment ends at {new}, but the report is known to reach {previous}"
            ),
            Refusal::ConflictingEnd { previous, new } => write!(
                f,
                "a segment ends at {new}, but the report's end is known to be {previous}"
            ),
            Refusal::BufferTooShort(needed) => write!(
                f,
                "the lent buffer is too short: {needed} bytes are needed"
            ),
            Refusal::RangesFull => write!(
                f,
                "too many gaps: 64 separate ranges are held, and this segment joins none of them"
            ),
            Refusal::LimitTooLarge(limit) => write!(
                f,
                "a payload limit of {limit} was asked for; at most 65520 is possible"
            ),
            Refusal::NotComplete => write!(f, "the report is not complete"),
            Refusal::MalformedState => write!(
                f,
                "these words are no state of a stream: they come from elsewhere, or were changed; begin the stream anew"
            ),
            Refusal::CountFull => write!(
                f,
                "4294967295 segments were taken since the stream was begun or cleared, and no number is left: clear it"
            ),
        }
    }
}
