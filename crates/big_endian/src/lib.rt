// Numbers out of their bytes, the high byte first. Functions of bytes, so that they ask nothing of a slice.
#![tactic(auto)]

ghost use Rattle.std.specs.Prelude.{◌≡◌, ◌+◌, ◌*◌};

// The number of two bytes.
pub fn be16(high: u8, low: u8) -> u16
    ensures { result ≡ high * 256 + low }
{
    u16::from_be_bytes([high, low])
}

// The number of three bytes.
pub fn be24(high: u8, middle: u8, low: u8) -> u32
    ensures { result ≡ high * 65536 + (middle * 256 + low) }
{
    u32::from_be_bytes([0, high, middle, low])
}

// The number of four bytes.
pub fn be32(a: u8, b: u8, c: u8, d: u8) -> u32
    ensures { result ≡ (a * 256 + b) * 65536 + (c * 256 + d) }
{
    u32::from_be_bytes([a, b, c, d])
}
