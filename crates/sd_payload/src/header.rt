// The SD header: the sixteen bytes of a SOME/IP message that carries service discovery. Its length field and protocol version are not judged.
ghost use Rattle.std.specs.Prelude.{◌≡◌};
ghost use Rattle.refusal.specs.Said.{verdict_said};
ghost use Rattle.sd_format.specs.Payload.{header};
ghost use Rattle.sd_payload.specs.Header.{header_fields};

use big_endian::{be16, be32};
use refusal::Refusal;

pub const HEADER_LEN: usize = 16;

pub const SD_MESSAGE_ID: u32 = 0xffff8100;

pub const SD_INTERFACE_VERSION: u8 = 1;

pub const NOTIFICATION: u8 = 0x02;

// The verdict on the fields of an SD header: 14 to 19.
#[tactic(auto, using(crate::proofs::Tests::tests), unfolding(crate::specs::Header::header_fields))]
fn judge_fields(
    id: u32,
    client: u16,
    session: u16,
    version: u8,
    message_type: u8,
    return_code: u8,
) -> Result<(), Refusal>
    ensures { verdict_said result ≡ header_fields id client session version message_type return_code }
{
    if id != SD_MESSAGE_ID {
        return Err(Refusal::MessageId(id));
    }
    if client != 0 {
        return Err(Refusal::ClientId(client));
    }
    if session == 0 {
        return Err(Refusal::SessionZero);
    }
    if version != SD_INTERFACE_VERSION {
        return Err(Refusal::InterfaceVersion(version));
    }
    if message_type != NOTIFICATION {
        return Err(Refusal::MessageType(message_type));
    }
    if return_code != 0 {
        return Err(Refusal::ReturnCode(return_code));
    }
    Ok(())
}

// The verdict on the SD header in front of a message: 1 with 16, then its fields.
pub(crate) fn judge_header(message: &[u8]) -> Result<(), Refusal>
    ensures { verdict_said result ≡ header message.now }
{
    if message.len() < HEADER_LEN {
        return Err(Refusal::UnexpectedEndOfSlice(HEADER_LEN));
    }
    judge_fields(
        be32(message[0], message[1], message[2], message[3]),
        be16(message[8], message[9]),
        be16(message[10], message[11]),
        message[13],
        message[14],
        message[15],
    )
}
