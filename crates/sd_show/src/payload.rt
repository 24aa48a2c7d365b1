// A payload, or a message with its header: what is in it, or why it is refused.
use crate::{fault, header};
use print::{YesNo, out};
use refusal::Refusal;
use sd_index::SLOTS;
use sd_lines::options::Options;
use sd_lines::{entries, options};
use sd_option::Settings;
use sd_payload::SdPayload;
use words::InWords;

// The line of the answer to a payload that stands in these bytes behind `ahead` others, a message's header or none; with a refusal, the byte at fault
// below it.
fn answered(rt: &impl Print, answer: Result<SdPayload, Refusal>, bytes: &[u8], ahead: usize) {
    match answer {
        Ok(
            SdPayload {
                entries,
                options,
                ..
            },
        ) => {
            let length = bytes.len().saturating_sub(ahead);
            out(
                rt,
                format_args!("accepted: bytes {length}, entries {entries}, options {options}\n"),
            );
        }
        Err(refusal) => {
            out(rt, format_args!("{}\n", InWords(refusal)));
            fault::shown(rt, refusal, bytes, ahead);
        }
    }
}

// What is in a payload that was read with this answer, and whose table was filled; nothing after a refusal.
fn contents(rt: &impl Print, answer: Result<SdPayload, Refusal>, bytes: &[u8], table: &[u16]) {
    let Ok(
        SdPayload {
            flags,
            options: count,
            ..
        },
    ) = answer
    else {
        return;
    };
    out(
        rt,
        format_args!(
            "flags: reboot {}, unicast {}, explicit initial data control {}\n",
            YesNo(flags.reboot),
            YesNo(flags.unicast),
            YesNo(flags.explicit_initial_data_control)
        ),
    );
    let options = Options {
        bytes: sd_payload::options_part(bytes, answer),
        table,
        count,
    };
    entries::all(rt, sd_payload::entries_part(bytes, answer), options);
    options::all(rt, options);
}

pub(crate) fn show(rt: &impl Print, settings: Settings, payload: &[u8]) {
    let mut table = [0u16; SLOTS];
    let answer = sd_payload::read_payload(settings, payload, &mut table);
    answered(rt, answer, payload, 0);
    contents(rt, answer, payload, &table);
}

// A message: the same behind its header.
pub(crate) fn show_message(rt: &impl Print, settings: Settings, message: &[u8]) {
    let mut table = [0u16; SLOTS];
    let answer = sd_payload::read_message(settings, message, &mut table);
    answered(rt, answer, message, header::HEADER_LEN);
    header::shown(rt, message);
    contents(rt, answer, header::behind(message), &table);
}
