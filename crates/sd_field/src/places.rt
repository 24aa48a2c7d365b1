// The numbers and the addresses at their places among the bytes after an option's type.
ghost use Rattle.std.specs.Prelude.{◌≡◌, ◌+◌, ◌≤◌, length, take, drop};
ghost use Rattle.numbers.specs.Bytes.{at16};
ghost use Rattle.sd_format.specs.Options.{width};
ghost use Rattle.sd_option.specs.Kinds.{family_said};
ghost use Rattle.sd_field.specs.Said.{address_said, address_in};

use crate::IpAddress;
use big_endian::be16;
use sd_option::kinds::Family;

// The number of two bytes at a place.
#[tactic(auto, unfolding(numbers::specs::Bytes::at16))]
pub(crate) fn number16(s: &[u8], place: usize) -> u16
    requires { place + 2 ≤ length s.now }
    ensures { result ≡ at16 s.now place }
{
    be16(s[place], s[place + 1])
}

// How many bytes an address has.
pub(crate) fn width_of(family: Family) -> usize
    ensures { result ≡ width (family_said family) }
{
    match family {
        Family::Ipv4 => 4,
        Family::Ipv6 => 16,
    }
}

// The bytes behind the first one, as many as are asked.
fn bytes_behind<const N: usize>(body: &[u8]) -> [u8; N]
    requires { 1 + N ≤ length body.now }
    ensures { result ≡ take N (drop 1 body.now) }
{
    *body[1..].first_chunk().unwrap()
}

// The address behind the first byte.
pub(crate) fn address_at(family: Family, body: &[u8]) -> IpAddress
    requires { 1 + width (family_said family) ≤ length body.now }
    ensures { address_said result ≡ address_in (family_said family) body.now }
{
    match family {
        Family::Ipv4 => IpAddress::V4(bytes_behind(body)),
        Family::Ipv6 => IpAddress::V6(bytes_behind(body)),
    }
}
