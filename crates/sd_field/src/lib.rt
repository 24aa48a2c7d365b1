// One option by its kind's own fields, as one value that is read once. What no value holds, a configuration option's string and an unknown
// option's bytes, is a part of the bytes handed in.
#![tactic(auto)]

mod codes; // codes.rt: the type code of an option
mod places; // places.rt: the numbers and the addresses at their places

ghost use Rattle.std.specs.Prelude.{◌≡◌, ◌≤◌, length};
ghost use Rattle.numbers.specs.Answers.{given};
ghost use Rattle.sd_format.specs.Kinds.{address, kind_of};
ghost use Rattle.sd_format.specs.Frames.{read_option};
ghost use Rattle.sd_format.specs.Fields.{string, fields_of};
ghost use Rattle.sd_option.specs.Kinds.{family_said, role_said};
ghost use Rattle.sd_option.specs.Settings.{settings_said};
ghost use Rattle.sd_field.specs.Said.{first_said, option_said, decoded, fields_said, rest_of, needed, address_fields, Headed};

pub use codes::code_of;
use places::{address_at, number16, width_of};
use refusal::Refusal;
use sd_option::Settings;
use sd_option::kinds::{Family, OptionKind, Role};
use sd_option::reading::{DISCARDABLE, FRAME_LEN, OptionHead, option_bytes, read_option};

// The byte after the type: the discardable bit, and its seven other bits, as sent.
#[derive(Clone, Copy, PartialEq, Eq)]
pub struct OptionFirst {
    pub discardable: bool,
    pub others: u8,
}

// An address by its bytes.
#[derive(Clone, Copy, PartialEq, Eq)]
pub enum IpAddress {
    V4([u8; 4]),
    V6([u8; 16]),
}

// A configuration option's string and an unknown option's later bytes: `option_rest`. `reserved` is the byte before the transport protocol, as
// sent.
#[derive(Clone, Copy, PartialEq, Eq)]
pub enum SdOption {
    Configuration {
        first: OptionFirst,
    },
    LoadBalancing {
        first: OptionFirst,
        priority: u16,
        weight: u16,
    },
    Address {
        role: Role,
        first: OptionFirst,
        address: IpAddress,
        reserved: u8,
        protocol: u8,
        port: u16,
    },
    Unknown {
        code: u8,
        first: OptionFirst,
    },
}

// An option, and how many bytes it takes, its length and its type among them.
#[derive(Clone, Copy)]
pub struct Fields {
    pub option: SdOption,
    pub size: usize,
}

// An option with an address, whose other fields stand in `body`, the bytes after its type.
fn address_option(family: Family, role: Role, first: OptionFirst, body: &[u8]) -> SdOption
    requires { needed (address (family_said family) (role_said role)) ≤ length body.now }
    ensures { option_said (string body.now) result ≡ address_fields (family_said family) (role_said role) (first_said first) body.now }
{
    let width = width_of(family);
    SdOption::Address {
        role,
        first,
        address: address_at(family, body),
        reserved: body[1 + width],
        protocol: body[2 + width],
        port: number16(body, 3 + width),
    }
}

// The option of this head, whose fields stand in `body`, the bytes after its type.
#[tactic(auto, unfolding(sd_format::specs::Fields::fields_of))]
fn fields_of(head: OptionHead, body: &[u8]) -> SdOption
    requires { Headed head body.now }
    ensures { option_said (string body.now) result ≡ fields_of (kind_of head.code) head.code body.now }
{
    let code = head.code;
    let first = OptionFirst {
        discardable: head.discardable,
        others: body[0] & !DISCARDABLE,
    };
    match OptionKind::from(code) {
        OptionKind::Configuration => SdOption::Configuration { first },
        OptionKind::LoadBalancing => SdOption::LoadBalancing {
            first,
            priority: number16(body, 1),
            weight: number16(body, 3),
        },
        OptionKind::Address(family, role) => address_option(family, role, first, body),
        OptionKind::Unknown => SdOption::Unknown { code, first },
    }
}

// The option in front of `s` by its fields, what it holds judged.
#[tactic(auto, using(sd_option::proofs::ReadingLaws::size_some, sd_option::proofs::ReadingLaws::size_within, crate::proofs::FieldLaws::found_headed, crate::proofs::FieldLaws::found_fields, crate::proofs::FieldLaws::refused_fields))]
pub fn read_fields(settings: Settings, s: &[u8]) -> Result<Fields, Refusal>
    ensures { fields_said (rest_of (settings_said settings) s.now) result ≡ given decoded (read_option (settings_said settings) s.now) }
{
    let head = read_option(settings, s)?;
    let size = head.size;
    Ok(Fields {
        option: fields_of(head, &s[FRAME_LEN..size]),
        size,
    })
}

// What stands behind the first byte of the option in front of `s`: a configuration option's string, an unknown option's bytes; none where it is
// refused.
pub fn option_rest(settings: Settings, s: &[u8]) -> &[u8]
    ensures { result.now ≡ rest_of (settings_said settings) s.now }
{
    option_bytes(settings, s).get(1..).unwrap_or(&[])
}
