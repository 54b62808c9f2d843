// Numbers in bytes, most significant byte first, from a position on. Byte by byte: std converts whole numbers, so that a shorter field
// would be cut from a buffer, which is no plainer, and the words of an image would take twice the time.
ghost use Rattle.std.specs.Prelude.{◌≡◌, ◌++◌, ◌+◌, ◌^◌, ◌<◌, ◌≤◌, length, take, drop};
ghost use Rattle.big_endian.specs.Bytes.{bytes_of, value_of};

// The number in `BYTES` bytes.
pub fn uint_at<const BYTES: usize>(bytes: &[u8], at: usize) -> u64
    requires { (BYTES ≤ 8) × (at + BYTES ≤ length bytes.now) }
    ensures { (result ≡ value_of (take BYTES (drop at bytes.now))) × (result < 256 ^ BYTES) }
{
    bytes[at..at + BYTES]
        .iter()
        .fold(0, |number, byte| number << 8 | u64::from(*byte))
}

// Writes the number's last `BYTES` bytes; all other bytes stay.
pub fn put_uint<const BYTES: usize>(out: &mut [u8], at: usize, number: u64)
    requires { (BYTES ≤ 8) × (at + BYTES ≤ length out.old) }
    ensures { out.new ≡ take at out.old ++ bytes_of BYTES number ++ drop (at + BYTES) out.old }
{
    for (i, byte) in out[at..at + BYTES].iter_mut().enumerate() {
        *byte = ((number >> (8 * (BYTES - 1 - i))) % 256) as u8;
    }
}
