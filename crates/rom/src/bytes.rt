// What stands in bytes that lie one behind the other, as FCode bytes do once they are laid out: single ones, and numbers of two and four.
ghost use Rattle.std.specs.Prelude.{◌≡◌};
ghost use Rattle.rom.specs.Bytes.{byte_of, word16_of, word32_of};

// Byte k, and 0 past the end.
pub fn byte(bytes: &[u8], k: usize) -> u8
    ensures { result ≡ byte_of bytes.now k }
{
    bytes.get(k).copied().unwrap_or(0)
}

// The two bytes at a place as a number, big-endian.
pub fn word16(bytes: &[u8], at: u32) -> u16
    ensures { result ≡ word16_of bytes.now at }
{
    let k = at as usize;
    u16::from_be_bytes([byte(bytes, k), byte(bytes, k + 1)])
}

// The four bytes at a place as a number, big-endian.
pub fn word32(bytes: &[u8], at: u32) -> u32
    ensures { result ≡ word32_of bytes.now at }
{
    let k = at as usize;
    u32::from_be_bytes([
        byte(bytes, k),
        byte(bytes, k + 1),
        byte(bytes, k + 2),
        byte(bytes, k + 3),
    ])
}
