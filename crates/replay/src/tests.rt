// What the clauses leave open: which files are answered at all, and how much of them is taken.
use super::{records, records_behind};

const NAME: [u8; 8] = *b"RECORD\0\0";

// Files; what `records` answers, what `records_behind` does, and how many bytes that leaves. (`records` takes sixteen, where there are as many.)
const FILES: [(&[u8], Option<u32>, Option<u32>, usize); 7] = [
    (
        b"RECORD\0\0\x01\x02\x03\x04\0\0\0\0rest",
        Some(0x01020304),
        Some(0x01020304),
        4,
    ),
    (b"RECORD\0\0\x01\x02", Some(0x01020000), Some(0x01020000), 0),
    (b"RECORD\0\0", Some(0), Some(0), 0),
    (b"RECORD", Some(0), None, 0),
    (b"RECOR", None, None, 0),
    (b"", None, None, 0),
    (b"RECORD01\x01\x02\x03\x04\0\0\0\0rest", None, None, 12),
];

#[test]
fn files_by_what_stands_in_front(rt: HostRuntime) {
    for (file, at_once, whole, left) in FILES {
        let mut rest = file;
        assert_eq!(rt; records(&mut rest, NAME), at_once);
        assert_eq!(rt; rest.len(), file.len().saturating_sub(16));
        rest = file;
        assert_eq!(rt; records_behind(&mut rest, NAME), whole);
        assert_eq!(rt; rest.len(), left);
    }
}
