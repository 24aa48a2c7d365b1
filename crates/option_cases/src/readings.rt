// One option by every call that reads it: alone, by the cursor, in an index, in a payload and in a message.
ghost use Rattle.std.specs.Prelude.{◌≤◌, length};

use case_lines::{answer, message, payload, said, word};
use hub::options::{viaductle_index, viaductle_next_option, viaductle_read_option};
use sd_index::{Offset, OptionCursor, SLOTS};
use sd_option::Settings;
use sd_option::reading::read_option;

// An option alone.
fn alone(rt: &impl Print, name: &str, option: &[u8], settings: Settings) {
    let said = said(read_option(settings, option).map(|_| []));
    let told = viaductle_read_option(option, word(settings));
    answer(rt, name.as_bytes(), said, told.answer);
}

// An option at a place among others, by the cursor.
fn by_cursor(rt: &impl Print, name: &str, options: &[u8], at: usize, settings: Settings) {
    let cursor = OptionCursor { at: Offset(at) };
    let read = cursor.next(settings, options).answer;
    let said = said(read.map(|head| [head.code as u64, at as u64, head.size as u64]));
    answer(
        rt,
        name.as_bytes(),
        said,
        viaductle_next_option(options, at, word(settings)),
    );
}

// An index.
fn in_index(rt: &impl Print, name: &str, options: &[u8], settings: Settings) {
    let mut table = [0u16; SLOTS];
    let said = said(sd_index::read_index(settings, options, &mut table).map(|n| [n as u64]));
    answer(
        rt,
        name.as_bytes(),
        said,
        viaductle_index(options, &mut table, word(settings)),
    );
}

// The second option of a message that has no entries, behind an option of four bytes: each call reads its part of the message.
pub(crate) fn by_all(rt: &impl Print, name: &str, bytes: &[u8], settings: Settings)
    requires { 32 ≤ length bytes.now }
{
    let options = &bytes[28..];
    alone(rt, name, &bytes[32..], settings);
    by_cursor(
        rt,
        "the same by the cursor, behind another option",
        options,
        4,
        settings,
    );
    in_index(
        rt,
        "the same in an index, behind another option",
        options,
        settings,
    );
    payload(
        rt,
        b"the same in a payload, behind another option",
        &bytes[16..],
        settings,
    );
    message(
        rt,
        b"the same in a message, behind another option",
        bytes,
        settings,
    );
}
