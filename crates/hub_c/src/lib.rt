// What C calls: each function of `hub` under its own name, with the same clauses. include/viaductle.h declares them. A crate is a library or
// an archive for C, and not both: the programs call `hub`, C calls this.
#![tactic(auto)]

ghost use Rattle.config_string.specs.Items.{next_item};
ghost use Rattle.hub.specs.Answers.{told, no_values, option_values, item_values};
ghost use Rattle.hub.specs.Entries.{entry_told};
ghost use Rattle.hub.specs.Options.{Indexes, read_option_told};
ghost use Rattle.hub.specs.Payload.{places_told, Reads};
ghost use Rattle.hub.specs.Settings.{settings_of};
ghost use Rattle.hub.specs.Tp.{Begins, Consumes, completes, Takes, Clears, counts, ranges};
ghost use Rattle.numbers.specs.Answers.{verdict};
ghost use Rattle.sd_format.specs.Entries.{read_entry, next_entry};
ghost use Rattle.sd_format.specs.Frames.{look_up, next_option, next_of_run};
ghost use Rattle.sd_format.specs.Payload.{read_payload, read_message};
ghost use Rattle.sd_format.specs.Strings.{read_string};
ghost use Rattle.sd_index.specs.Steps.{run_of};
ghost use Rattle.std.specs.Prelude.{◌≡◌, get_or};

use hub::answers::Answer;
use hub::entries::Entry;
use hub::options::Option;
use hub::payload::Places;
use hub::{entries, options, payload, tp};

// A whole payload, with the offsets of its options in the lent table: 22, then 1 to 6, the options, 10, the entries.
#[unsafe(no_mangle)]
pub extern "C" fn viaductle_read(payload: &[u8], table: &mut [u16], settings: u32) -> Answer
    ensures { Reads (read_payload (settings_of settings) payload.now) table.old result table.new }
{
    payload::viaductle_read(payload, table, settings)
}

// A message with its SD header: 22, then 1 with 16, 14 to 19, and then all later bytes as the payload.
#[unsafe(no_mangle)]
pub extern "C" fn viaductle_read_message(message: &[u8], table: &mut [u16], settings: u32) -> Answer
    ensures { Reads (read_message (settings_of settings) message.now) table.old result table.new }
{
    payload::viaductle_read_message(message, table, settings)
}

// The parts of a payload that was read with this answer; they are empty after a refusal, and where the bytes' own sizes are refused.
#[unsafe(no_mangle)]
pub extern "C" fn viaductle_parts(payload: &[u8], answer: Answer) -> Places
    ensures { result ≡ places_told answer.number payload.now }
{
    payload::viaductle_parts(payload, answer)
}

// The index alone: 22, 13, then the options from the front; their offsets into the lent table, and how many there are.
#[unsafe(no_mangle)]
pub extern "C" fn viaductle_index(options: &[u8], table: &mut [u16], settings: u32) -> Answer
    ensures { Indexes (settings_of settings) options.now table.old result table.new }
{
    options::viaductle_index(options, table, settings)
}

// The option of a number by the table: its type, where it starts, and how many bytes it takes; 20, 21.
#[unsafe(no_mangle)]
pub extern "C" fn viaductle_lookup(
    options: &[u8],
    table: &[u16],
    count: usize,
    ordinal: usize,
) -> Answer
    ensures { result ≡ told (option_values (get_or table.now ordinal 0)) (look_up options.now table.now count ordinal) }
{
    options::viaductle_lookup(options, table, count, ordinal)
}

// The option at a place among the options part's bytes; 20 with no bytes left, otherwise as one option is refused.
#[unsafe(no_mangle)]
pub extern "C" fn viaductle_next_option(options: &[u8], at: usize, settings: u32) -> Answer
    ensures { result ≡ told (option_values at) (next_option (settings_of settings) options.now at) }
{
    options::viaductle_next_option(options, at, settings)
}

// The option of number `next` where `left` of a run are left: 20 at its end, otherwise as lookup.
#[unsafe(no_mangle)]
pub extern "C" fn viaductle_next_of_run(
    options: &[u8],
    table: &[u16],
    count: usize,
    next: usize,
    left: usize,
) -> Answer
    ensures { result ≡ told (option_values (get_or table.now next 0)) (next_of_run options.now table.now count (run_of next left)) }
{
    options::viaductle_next_of_run(options, table, count, next, left)
}

// A configuration string alone: 9 with its values.
#[unsafe(no_mangle)]
pub extern "C" fn viaductle_string(string: &[u8]) -> Answer
    ensures { result ≡ told no_values (verdict (read_string string.now)) }
{
    options::viaductle_string(string)
}

// The item at a place of a configuration string: where its bytes start, and how many they are; 20 at the closing zero and with no bytes left,
// otherwise 9. To go through all: begin at 0, and go on behind the item's bytes.
#[unsafe(no_mangle)]
pub extern "C" fn viaductle_next_item(string: &[u8], at: usize) -> Answer
    ensures { result ≡ told (item_values at) (next_item string.now at) }
{
    options::viaductle_next_item(string, at)
}

// The option in front of these bytes, what it holds judged, with its fields.
#[unsafe(no_mangle)]
pub extern "C" fn viaductle_read_option(option: &[u8], settings: u32) -> Option
    ensures { result ≡ read_option_told (settings_of settings) option.now }
{
    options::viaductle_read_option(option, settings)
}

// One entry alone: 1 with 16 below 16 bytes, then 11; later bytes are not read.
#[unsafe(no_mangle)]
pub extern "C" fn viaductle_read_entry(entry: &[u8]) -> Entry
    ensures { result ≡ entry_told (read_entry entry.now) }
{
    entries::viaductle_read_entry(entry)
}

// The entry at a place among the entries part's bytes; 20 with no bytes left, otherwise as one entry alone.
#[unsafe(no_mangle)]
pub extern "C" fn viaductle_next_entry(entries: &[u8], at: usize) -> Entry
    ensures { result ≡ entry_told (next_entry entries.now at) }
{
    entries::viaductle_next_entry(entries, at)
}

// A stream begun in these words: 38 where they are too few, then 36, and the stream of limit 0.
#[unsafe(no_mangle)]
pub extern "C" fn viaductle_begin(words: &mut [u32], limit: u32) -> Answer
    ensures { Begins words.old limit result words.new }
{
    tp::viaductle_begin(words, limit)
}

// One segment comes; a refusal leaves words and buffer as they were.
#[unsafe(no_mangle)]
pub extern "C" fn viaductle_consume(words: &mut [u32], segment: &[u8], buffer: &mut [u8]) -> Answer
    ensures { Consumes words.old segment.now buffer.old result words.new buffer.new }
{
    tp::viaductle_consume(words, segment, buffer)
}

// 1 where the stream is complete, else 0.
#[unsafe(no_mangle)]
pub extern "C" fn viaductle_complete(words: &[u32]) -> Answer
    ensures { result ≡ completes words.now }
{
    tp::viaductle_complete(words)
}

// Taking the report: 38, 37, 34, or its length field is written and how long it is.
#[unsafe(no_mangle)]
pub extern "C" fn viaductle_take(words: &[u32], buffer: &mut [u8]) -> Answer
    ensures { Takes words.now buffer.old result buffer.new }
{
    tp::viaductle_take(words, buffer)
}

// The limit is kept, ranges, end and count are forgotten: 38 where the words are unfit, and they are left alone.
#[unsafe(no_mangle)]
pub extern "C" fn viaductle_clear(words: &mut [u32]) -> Answer
    ensures { Clears words.old result words.new }
{
    tp::viaductle_clear(words)
}

// How many segments were accepted since the stream was begun or cleared: 38, or their count.
#[unsafe(no_mangle)]
pub extern "C" fn viaductle_count(words: &[u32]) -> Answer
    ensures { result ≡ counts words.now }
{
    tp::viaductle_count(words)
}

// Of the ranges that begin at `from` or behind it the one that begins first: 38, 20, or where it begins and ends, and its number.
#[unsafe(no_mangle)]
pub extern "C" fn viaductle_range(words: &[u32], from: u32) -> Answer
    ensures { result ≡ ranges words.now from }
{
    tp::viaductle_range(words, from)
}
