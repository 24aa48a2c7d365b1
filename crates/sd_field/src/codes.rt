// The type code of an option, as its layout has it.
ghost use Rattle.std.specs.Prelude.{◌≡◌};
ghost use Rattle.sd_format.specs.Layout.{lay_type};
ghost use Rattle.sd_option.specs.Kinds.{family_said, role_said};
ghost use Rattle.sd_field.specs.Said.{address_said, code_said};

use crate::{IpAddress, SdOption};
use sd_option::kinds::{
    CONFIGURATION, Family, IPV4_ENDPOINT, IPV4_MULTICAST, IPV4_SD_ENDPOINT, IPV6_ENDPOINT,
    IPV6_MULTICAST, IPV6_SD_ENDPOINT, LOAD_BALANCING, Role,
};

// The family of an address. (No `From`: see `code_of`.)
fn family_of(address: IpAddress) -> Family
    ensures { family_said result ≡ (address_said address).family }
{
    match address {
        IpAddress::V4(_) => Family::Ipv4,
        IpAddress::V6(_) => Family::Ipv6,
    }
}

// The code of an option with an address.
fn address_code(family: Family, role: Role) -> u8
    ensures { result ≡ lay_type (family_said family) (role_said role) }
{
    match (family, role) {
        (Family::Ipv4, Role::Endpoint) => IPV4_ENDPOINT,
        (Family::Ipv4, Role::Multicast) => IPV4_MULTICAST,
        (Family::Ipv4, Role::SdEndpoint) => IPV4_SD_ENDPOINT,
        (Family::Ipv6, Role::Endpoint) => IPV6_ENDPOINT,
        (Family::Ipv6, Role::Multicast) => IPV6_MULTICAST,
        (Family::Ipv6, Role::SdEndpoint) => IPV6_SD_ENDPOINT,
    }
}

// The type code of an option. No `From`: a code is not what the option is, but one thing that it has.
pub fn code_of(option: SdOption) -> u8
    ensures { result ≡ code_said option }
{
    match option {
        SdOption::Configuration { .. } => CONFIGURATION,
        SdOption::LoadBalancing { .. } => LOAD_BALANCING,
        SdOption::Address { role, address, .. } => address_code(family_of(address), role),
        SdOption::Unknown { code, .. } => code,
    }
}
