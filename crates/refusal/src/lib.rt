// Everything that is refused, once for all layers, whose answers hold it; and the rules' number and values for it. Offsets and lengths are `usize`, numbers off the wire have their width there.
#![tactic(auto)]

mod answers; // answers.rt: what the answers of all layers share
mod places; // places.rt: a refusal's place, counted from further to the front
mod values; // values.rt: the number and the values of a refusal

pub use answers::{Step, refusal_of};
pub use places::moved;
pub use values::{Numbers, PLACES};

// What gave the length that an option was judged by.
#[derive(Clone, Copy)]
pub enum LengthSource {
    Slice,
    OptionLength,
}

// The six errors of a configuration string. `item_offset` is where the item's length byte stands in the string, `byte_offset` the place of a
// byte among the item's own.
#[derive(Clone, Copy)]
pub enum StringError {
    MissingTerminator,
    ItemLengthExceedsRemaining {
        item_offset: usize,
        item_length: u8,
        remaining: usize,
    },
    TrailingDataAfterTerminator {
        terminator_offset: usize,
    },
    EmptyKey {
        item_offset: usize,
    },
    InvalidKeyByte {
        item_offset: usize,
        byte_offset: usize,
        value: u8,
    },
    KeyContainsOnlyWhitespace {
        item_offset: usize,
    },
}

// In the order of the rules' table. `place` is the byte at which an option was refused: of an option that is read alone counted from its own first
// byte, among others from the first byte of the options, and of a string that is read alone from the string's.
#[derive(Clone, Copy)]
pub enum Refusal {
    UnexpectedEndOfSlice(usize),
    EntriesLengthTooLarge(u32),
    EntriesLengthUneven(u32),
    OptionsLengthTooLarge(u32),
    PayloadTooLarge(u32),
    PayloadLengthMismatch {
        expected: usize,
        actual: usize,
    },
    OptionLength {
        needed: usize,
        had: usize,
        source: LengthSource,
        place: usize,
    },
    OptionLengthZero {
        place: usize,
    },
    ConfigurationString {
        error: StringError,
        place: usize,
    },
    UnknownOption {
        code: u8,
        place: usize,
    },
    UnknownEntry(u8),
    RunOutOfBounds {
        run: u8,
        start: u8,
        count: u8,
        options: usize,
    },
    IndexTooLarge(usize),
    MessageId(u32),
    ClientId(u16),
    SessionZero,
    InterfaceVersion(u8),
    MessageType(u8),
    ReturnCode(u8),
    NothingThere,
    TableMisfit,
    FewSlots(usize),
    WrongProtocol {
        protocol: u8,
        place: usize,
    },
    NotASegment,
    SegmentTooBig {
        offset: u32,
        length: usize,
        max: u32,
    },
    UnalignedTpPayloadLen {
        offset: u32,
        length: usize,
    },
    ConflictingEnd {
        previous: u32,
        new: u32,
    },
    BufferTooShort(usize),
    RangesFull,
    LimitTooLarge(u32),
    NotComplete,
    MalformedState,
    CountFull,
}
