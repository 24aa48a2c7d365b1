// The bytes of the cases.

// The rules' whole payload: reboot; an offer of service 0x1234, TTL 3600, whose run 1 holds one IPv4 endpoint.
pub(crate) const WHOLE: [u8; 40] = [
    0x80, 0x00, 0x00, 0x00, 0x00, 0x00, 0x00, 0x10, 0x01, 0x00, 0x00, 0x10, 0x12, 0x34, 0x56, 0x78,
    0x01, 0x00, 0x0e, 0x10, 0x01, 0x00, 0x00, 0x00, 0x00, 0x00, 0x00, 0x0c, 0x00, 0x09, 0x04, 0x00,
    0xc0, 0xa8, 0x01, 0x01, 0x00, 0x06, 0x1f, 0x90,
];

// The same with another start of run 1 and another byte of counts.
pub(crate) fn whole_with(start: u8, counts: u8) -> [u8; 40] {
    let mut s = WHOLE;
    s[9] = start;
    s[11] = counts;
    s
}

// Twelve bytes with an entries length.
pub(crate) fn twelve(entries: u8) -> [u8; 12] {
    let mut s = [0u8; 12];
    s[7] = entries;
    s
}

// 28 bytes with an entries length of 16 and an options length of 1388.
pub(crate) fn long_options() -> [u8; 28] {
    let mut s = [0u8; 28];
    s[7] = 16;
    s[26] = 0x05;
    s[27] = 0x6c;
    s
}

// A payload with one option of the unknown type 0x77, and its first byte.
pub(crate) fn unknown(first: u8) -> [u8; 16] {
    let mut s = [0u8; 16];
    s[11] = 4;
    s[13] = 1;
    s[14] = 0x77;
    s[15] = first;
    s
}

// A payload with 347 options of four bytes, all discardable.
pub(crate) fn many() -> [u8; 1400] {
    let mut s = [0u8; 1400];
    s[10] = 0x05;
    s[11] = 0x6c;
    for option in s[12..].chunks_exact_mut(4) {
        option.copy_from_slice(&[0, 1, 0x77, 0x80]);
    }
    s
}
