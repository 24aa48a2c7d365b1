// The plain types that the definitions speak of, shared with the code. The definitions are in specs/, their theorems in proofs/.
#![tactic(auto)]

// The payload's bytes from `start` up to `end` (not included). `number` is that of the latest accepted segment in it: the first one's is 1.
#[derive(Clone, Copy)]
pub struct TpRange {
    pub start: u32,
    pub end: u32,
    pub number: u32,
}
