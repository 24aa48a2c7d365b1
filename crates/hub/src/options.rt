// The options part and one option, as exported to C.
ghost use Rattle.std.specs.Prelude.{◌≡◌, get_or, ℕ, ◌≤◌, List};
ghost use Rattle.sd_format.specs.Frames.{look_up, next_option, next_of_run};
ghost use Rattle.sd_index.specs.Steps.{run_of};
ghost use Rattle.sd_format.specs.Layout.{address_length};
ghost use Rattle.numbers.specs.Answers.{verdict};
ghost use Rattle.sd_format.specs.Strings.{read_string};
ghost use Rattle.config_string.specs.Items.{next_item};
ghost use Rattle.sd_field.specs.Said.{first_said, address_said, option_said};
ghost use Rattle.hub.specs.Answers.{told, no_values, option_values, item_values};
ghost use Rattle.hub.specs.Settings.{settings_of};
ghost use Rattle.hub.specs.Options.{Indexes, nowhere, fields, option_fields, no_option, read_option_told};

use crate::answers::{Answer, accepted, located_values, one_value, passed, told};
use crate::settings::settings_of;
use config_string::{check_string, item_at};
use sd_field::{IpAddress, OptionFirst, SdOption, code_of, read_fields};
use sd_index::{Found, Offset, OptionCursor, Ordinal, RunCursor, look_up, read_index};

// The index alone: 22, 13, then the options from the front; their offsets into the lent table, and how many there are.
pub fn viaductle_index(options: &[u8], table: &mut [u16], settings: u32) -> Answer
    ensures { Indexes (settings_of settings) options.now table.old result table.new }
{
    told(read_index(settings_of(settings), options, table).map(one_value))
}

// The option of a number by the table: its type, where it starts, and how many bytes it takes; 20, 21.
#[tactic(auto, using(crate::proofs::ToldLaws::located_told))]
pub fn viaductle_lookup(options: &[u8], table: &[u16], count: usize, ordinal: usize) -> Answer
    ensures { result ≡ told (option_values (get_or table.now ordinal 0)) (look_up options.now table.now count ordinal) }
{
    told(look_up(options, table, count, Ordinal(ordinal)).map(located_values))
}

// The option at a place among the options part's bytes; 20 with no bytes left, otherwise as one option is refused.
#[tactic(auto, using(crate::proofs::ToldLaws::headed_told))]
pub fn viaductle_next_option(options: &[u8], at: usize, settings: u32) -> Answer
    ensures { result ≡ told (option_values at) (next_option (settings_of settings) options.now at) }
{
    let offset = Offset(at);
    let cursor = OptionCursor { at: offset };
    let step = cursor.next(settings_of(settings), options);
    // not by `map`: what a closure over `at` gives was not proved, and so in `viaductle_next_item`
    match step.answer {
        Ok(head) => accepted(&located_values(Found { offset, head })),
        Err(refusal) => Answer::from(refusal),
    }
}

// The option of number `next` where `left` of a run are left: 20 at its end, otherwise as lookup.
#[tactic(auto, using(crate::proofs::ToldLaws::located_told))]
pub fn viaductle_next_of_run(
    options: &[u8],
    table: &[u16],
    count: usize,
    next: usize,
    left: usize,
) -> Answer
    ensures { result ≡ told (option_values (get_or table.now next 0)) (next_of_run options.now table.now count (run_of next left)) }
{
    let cursor = RunCursor {
        next: Ordinal(next),
        left,
    };
    told(
        cursor
            .next(options, table, count)
            .answer
            .map(located_values),
    )
}

// A configuration string alone: 9 with its values.
pub fn viaductle_string(string: &[u8]) -> Answer
    ensures { result ≡ told no_values (verdict (read_string string.now)) }
{
    passed(check_string(string))
}

// The item at a place of a configuration string: where its bytes start, and how many they are; 20 at the closing zero and with no bytes left,
// otherwise 9. To go through all: begin at 0, and go on behind the item's bytes.
pub fn viaductle_next_item(string: &[u8], at: usize) -> Answer
    ensures { result ≡ told (item_values at) (next_item string.now at) }
{
    match item_at(string, at) {
        Ok(item) => accepted(&[(at + 1) as u64, item.len() as u64]),
        Err(refusal) => Answer::from(refusal),
    }
}

// One option: the answer of its reading, and then its fields. Those that its kind has not hold 0, and so do all after a refusal.
#[repr(C)]
#[derive(Clone, Copy)]
pub struct Option {
    pub answer: Answer,
    pub code: u64,
    pub size: u64,
    pub discardable: u64,
    pub priority: u64,
    pub weight: u64,
    pub address_at: u64,
    pub address_len: u64,
    pub protocol: u64,
    pub port: u64,
    pub string_at: u64,
    pub string_len: u64,
}

// An answer with no fields: each is written out, as in the definition.
fn no_option(answer: Answer) -> Option
    ensures { result ≡ no_option answer }
{
    Option {
        answer,
        code: 0,
        size: 0,
        discardable: 0,
        priority: 0,
        weight: 0,
        address_at: 0,
        address_len: 0,
        protocol: 0,
        port: 0,
        string_at: 0,
        string_len: 0,
    }
}

// Where the parts behind an option's first byte start, which is byte 3.
const BEHIND_FIRST: u64 = 4;

// How long an address is. (`sd_field` has a function of the family inside: no plainer from here.)
fn address_len(address: IpAddress) -> usize
    ensures { result ≡ address_length (address_said address).family }
{
    match address {
        IpAddress::V4(_) => 4,
        IpAddress::V6(_) => 16,
    }
}

// The fields of an option of that type and so many bytes that every kind has.
fn headed(code: u8, size: usize, first: OptionFirst) -> Option
    ensures { result ≡ fields code size (first_said first) 0 0 nowhere 0 0 nowhere }
{
    Option {
        code: code as u64,
        size: size as u64,
        discardable: u64::from(first.discardable),
        ..no_option(accepted(&[]))
    }
}

// The fields of an option that takes `size` bytes, by its kind.
fn fields_of(option: SdOption, size: usize) -> Option
    requires { 4 ≤ size }
    ensures { (rest : List ℕ) → result ≡ option_fields size (option_said rest option) }
{
    let code = code_of(option);
    match option {
        SdOption::Configuration { first } => Option {
            string_at: BEHIND_FIRST,
            string_len: (size - 4) as u64,
            ..headed(code, size, first)
        },
        SdOption::LoadBalancing {
            first,
            priority,
            weight,
        } => Option {
            priority: priority as u64,
            weight: weight as u64,
            ..headed(code, size, first)
        },
        SdOption::Address {
            first,
            address,
            protocol,
            port,
            ..
        } => Option {
            address_at: BEHIND_FIRST,
            address_len: address_len(address) as u64,
            protocol: protocol as u64,
            port: port as u64,
            ..headed(code, size, first)
        },
        SdOption::Unknown { first, .. } => headed(code, size, first),
    }
}

// The option in front of these bytes, what it holds judged, with its fields.
#[tactic(auto, using(crate::proofs::FieldLaws::four_bytes), unfolding(crate::specs::Options::read_option_told))]
pub fn viaductle_read_option(option: &[u8], settings: u32) -> Option
    ensures { result ≡ read_option_told (settings_of settings) option.now }
{
    match read_fields(settings_of(settings), option) {
        Ok(fields) => fields_of(fields.option, fields.size),
        Err(refusal) => no_option(Answer::from(refusal)),
    }
}
