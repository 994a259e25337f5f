// CRC-32 as zlib has it, four bits at a time.
const ROWS: [u32; 16] = [
    0x00000000, 0x1DB71064, 0x3B6E20C8, 0x26D930AC, 0x76DC4190, 0x6B6B51F4, 0x4DB26158, 0x5005713C,
    0xEDB88320, 0xF00F9344, 0xD6D6A3E8, 0xCB61B38C, 0x9B64C2B0, 0x86D3D2D4, 0xA00AE278, 0xBDBDF21C,
];

fn half_byte(sum: u32) -> u32 {
    sum / 16 ^ ROWS[(sum % 16) as usize]
}

fn one_byte(sum: u32, byte: u8) -> u32 {
    half_byte(half_byte(sum ^ u32::from(byte)))
}

pub fn crc(bytes: &[u8]) -> u32 {
    let sum = bytes
        .iter()
        .fold(0xFFFF_FFFF, |sum, byte| one_byte(sum, *byte));
    sum ^ 0xFFFF_FFFF
}
