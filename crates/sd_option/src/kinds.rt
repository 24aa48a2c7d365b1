// The kinds of options: the rules' table of type codes and lengths, and what a type has there.
ghost use Rattle.std.specs.Prelude.{◌≡◌};
ghost use Rattle.sd_format.specs.Kinds.{row_of, kind_of};
ghost use Rattle.sd_option.specs.Kinds.{kind_said, taken, encoded};

// The type codes.
pub const CONFIGURATION: u8 = 0x01;

pub const LOAD_BALANCING: u8 = 0x02;

pub const IPV4_ENDPOINT: u8 = 0x04;

pub const IPV4_MULTICAST: u8 = 0x14;

pub const IPV4_SD_ENDPOINT: u8 = 0x24;

pub const IPV6_ENDPOINT: u8 = 0x06;

pub const IPV6_MULTICAST: u8 = 0x16;

pub const IPV6_SD_ENDPOINT: u8 = 0x26;

// A row of the table.
#[derive(Clone, Copy)]
pub struct KindRow {
    pub code: u8,
    pub exact_len: Option<usize>, // of the bytes after the type; a kind that has none asks for one byte or more
    pub has_protocol: bool, // beside an address
}

// A constant table, and matches on the type byte, here and below: the rules' paper names these forms.
pub const KINDS: [KindRow; 8] = [
    KindRow {
        code: CONFIGURATION,
        exact_len: None,
        has_protocol: false,
    },
    KindRow {
        code: LOAD_BALANCING,
        exact_len: Some(5),
        has_protocol: false,
    },
    KindRow {
        code: IPV4_ENDPOINT,
        exact_len: Some(9),
        has_protocol: true,
    },
    KindRow {
        code: IPV4_MULTICAST,
        exact_len: Some(9),
        has_protocol: true,
    },
    KindRow {
        code: IPV4_SD_ENDPOINT,
        exact_len: Some(9),
        has_protocol: true,
    },
    KindRow {
        code: IPV6_ENDPOINT,
        exact_len: Some(21),
        has_protocol: true,
    },
    KindRow {
        code: IPV6_MULTICAST,
        exact_len: Some(21),
        has_protocol: true,
    },
    KindRow {
        code: IPV6_SD_ENDPOINT,
        exact_len: Some(21),
        has_protocol: true,
    },
];

// The row of a type; an unknown type needs length 1 or more.
#[tactic(auto, unfolding(sd_format::specs::Kinds::row_of, sd_format::specs::Kinds::row_in, sd_format::specs::Kinds::kinds))]
pub fn row_of(code: u8) -> KindRow
    ensures { result ≡ encoded (row_of code) }
{
    match code {
        CONFIGURATION => KINDS[0],
        LOAD_BALANCING => KINDS[1],
        IPV4_ENDPOINT => KINDS[2],
        IPV4_MULTICAST => KINDS[3],
        IPV4_SD_ENDPOINT => KINDS[4],
        IPV6_ENDPOINT => KINDS[5],
        IPV6_MULTICAST => KINDS[6],
        IPV6_SD_ENDPOINT => KINDS[7],
        _ => KindRow {
            code,
            exact_len: None,
            has_protocol: false,
        },
    }
}

const TCP: u8 = 0x06;

const UDP: u8 = 0x11;

// The rule of the strict setting: whether an option of this type, which has a protocol, may carry this one.
pub(crate) fn takes(code: u8, protocol: u8) -> bool
    ensures { result ≡ taken code protocol }
{
    match code {
        IPV4_MULTICAST | IPV6_MULTICAST => protocol == UDP,
        _ => matches!(protocol, TCP | UDP),
    }
}

// Which addresses an option has.
#[derive(Clone, Copy, PartialEq, Eq)]
pub enum Family {
    Ipv4,
    Ipv6,
}

// What its address is for.
#[derive(Clone, Copy, PartialEq, Eq)]
pub enum Role {
    Endpoint,
    Multicast,
    SdEndpoint,
}

// The known kinds, and a type that is none of theirs.
#[derive(Clone, Copy, PartialEq, Eq)]
pub enum OptionKind {
    Configuration,
    LoadBalancing,
    Address(Family, Role),
    Unknown,
}

// The kind of an option of this type.
impl From<u8> for OptionKind {
    ghost from_gives = { λ code kind. kind_said kind ≡ kind_of code };

    #[tactic(auto, unfolding(sd_format::specs::Kinds::row_of, sd_format::specs::Kinds::row_in, sd_format::specs::Kinds::kinds))]
    fn from(code: u8) -> OptionKind {
        match code {
            CONFIGURATION => OptionKind::Configuration,
            LOAD_BALANCING => OptionKind::LoadBalancing,
            IPV4_ENDPOINT => OptionKind::Address(Family::Ipv4, Role::Endpoint),
            IPV4_MULTICAST => OptionKind::Address(Family::Ipv4, Role::Multicast),
            IPV4_SD_ENDPOINT => OptionKind::Address(Family::Ipv4, Role::SdEndpoint),
            IPV6_ENDPOINT => OptionKind::Address(Family::Ipv6, Role::Endpoint),
            IPV6_MULTICAST => OptionKind::Address(Family::Ipv6, Role::Multicast),
            IPV6_SD_ENDPOINT => OptionKind::Address(Family::Ipv6, Role::SdEndpoint),
            _ => OptionKind::Unknown,
        }
    }
}
