// The classes of bytes that a key is judged by. The class rule is proved once, over the whole table (`Classes::new`), and carried from there to each
// byte (`class_of`).
ghost use Rattle.std.specs.Prelude.{◌≡◌};
ghost use Rattle.config_string.specs.Classes.{class_of, Classified};

// The classes are digits, so that the table is text: 0 outside 0x20 to 0x7e, 1 the equals sign, 2 the space, 3 any other printable byte. The two that
// end a key are the lowest, so that one test a byte finds either; and 2 and 3 joined bit by bit are 3 (docs/SPEED.md).
pub(crate) const OUTSIDE: u8 = b'0';

pub(crate) const SPACE: u8 = b'2';

// The class of each byte, sixteen bytes to a line.
const CLASSES: [u8; 256] = *b"\
    0000000000000000\
    0000000000000000\
    2333333333333333\
    3333333333333133\
    3333333333333333\
    3333333333333333\
    3333333333333333\
    3333333333333330\
    0000000000000000\
    0000000000000000\
    0000000000000000\
    0000000000000000\
    0000000000000000\
    0000000000000000\
    0000000000000000\
    0000000000000000";

// The classes of all bytes, to be lent: made once for many bytes, since a constant that is indexed is made anew at each use (docs/SPEED.md).
#[derive(Drop)]
pub(crate) struct Classes {
    table: [u8; 256],
    ghost right: { Classified table },
}

impl Classes {
    // The table.
    #[tactic(auto, using(crate::proofs::ClassLaws::classified), unfolding(crate::specs::Classes::class_of))]
    pub(crate) fn new() -> Self {
        Classes { table: CLASSES }
    }

    // The class of a byte.
    pub(crate) fn class_of(&self, b: u8) -> u8
        ensures { result ≡ class_of b }
    {
        self.table[b as usize]
    }
}
