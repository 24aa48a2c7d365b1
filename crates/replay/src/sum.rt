// The check sum, in which a list of numbers is told by one.
ghost use Rattle.std.specs.Prelude.{◌≡◌};
ghost use Rattle.numbers.specs.Bytes.{be32};
ghost use Rattle.replay.specs.Sums.{sum_byte, sum_bytes};

// A sum with a byte more.
pub fn add_byte(sum: u32, b: u8) -> u32
    ensures { result ≡ sum_byte sum b }
{
    ((sum as u64 * 16777619 + b as u64 + 1) % 4294967291) as u32
}

// A sum with bytes more.
pub fn add_bytes(sum: u32, bytes: &[u8]) -> u32
    ensures { result ≡ sum_bytes sum bytes.now }
{
    bytes.iter().fold(sum, |so_far, b| add_byte(so_far, *b))
}

// A sum with a number more, as its four bytes, the high one first.
#[tactic(auto, using(crate::proofs::Laws::number_bytes))]
pub fn add_number(sum: u32, n: u32) -> u32
    ensures { result ≡ sum_bytes sum (be32 n) }
{
    add_bytes(sum, &n.to_be_bytes())
}
