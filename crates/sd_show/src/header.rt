// A message's header: the sixteen bytes in front of its payload.
use big_endian::{be16, be32};
use print::out;
use std::fmt;

pub(crate) const HEADER_LEN: usize = 16;

#[derive(Clone, Copy)]
struct Header<'a>(&'a [u8; HEADER_LEN]);

impl<'a> fmt::Display for Header<'a> {
    fn fmt<W: fmt::Write>(&self, f: &mut fmt::Formatter<W>) -> fmt::Result {
        let m = self.0;
        write!(
            f,
            "header: message id 0x{:08x}, length {}, client 0x{:04x}, session 0x{:04x}",
            be32(m[0], m[1], m[2], m[3]),
            be32(m[4], m[5], m[6], m[7]),
            be16(m[8], m[9]),
            be16(m[10], m[11])
        )?;
        write!(
            f,
            ", protocol version {}, interface version {}, type 0x{:02x}, return code 0x{:02x}",
            m[12], m[13], m[14], m[15]
        )
    }
}

// The header's line; none where the header is not whole.
pub(crate) fn shown(rt: &impl Print, message: &[u8]) {
    if let Some(header) = message.first_chunk::<HEADER_LEN>() {
        out(rt, format_args!("{}\n", Header(header)));
    }
}

// The payload: the bytes behind the header; none where the header is not whole.
pub(crate) fn behind(message: &[u8]) -> &[u8] {
    message.get(HEADER_LEN..).unwrap_or(&[])
}
