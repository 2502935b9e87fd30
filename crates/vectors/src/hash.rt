// H, which stands in a line for bytes that are too many: 7 at first, and after each byte b it becomes h * 31 + b + 1 mod 2^32.
ghost use Rattle.std.specs.Prelude.{◌≡◌};
ghost use Rattle.vectors.specs.Hash.{after, after_byte};

// H of no bytes.
pub const NONE: u32 = 7;

// H of some bytes.
pub(crate) fn hash(bytes: &[u8]) -> u64 {
    after(NONE, bytes) as u64
}

// H after some bytes.
pub fn after(h: u32, bytes: &[u8]) -> u32
    ensures { result ≡ after h bytes.now }
{
    bytes.iter().fold(h, |h, byte| after_byte(h, *byte))
}

// H after one byte.
fn after_byte(h: u32, byte: u8) -> u32
    ensures { result ≡ after_byte h byte }
{
    h.wrapping_mul(31).wrapping_add(byte as u32).wrapping_add(1)
}
