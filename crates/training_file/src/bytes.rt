// Numbers out of bytes: little endian, and the signed byte, which goes both ways.
// What they require is met by `reading`, which has judged the file's length.

ghost use Rattle.std.specs.Prelude.{◌≡◌, ◌+◌, ◌≤◌, drop, length, take};
ghost use Rattle.training_file.specs.Layout.{byte_of_signed, le2, le4, le8, signed_byte};

// So many bytes from a place on.
fn bytes_at<const N: usize>(file: &[u8], at: usize) -> [u8; N]
    requires { at + N ≤ length file.now }
    ensures { result ≡ take N (drop at file.now) }
{
    let mut bytes = [0; N];
    bytes.copy_from_slice(&file[at..at + N]);
    bytes
}

pub fn u16_at(file: &[u8], at: usize) -> u16
    requires { at + 2 ≤ length file.now }
    ensures { result ≡ le2 file.now at }
{
    u16::from_le_bytes(bytes_at(file, at))
}

pub fn u32_at(file: &[u8], at: usize) -> u32
    requires { at + 4 ≤ length file.now }
    ensures { result ≡ le4 file.now at }
{
    u32::from_le_bytes(bytes_at(file, at))
}

pub fn u64_at(file: &[u8], at: usize) -> u64
    requires { at + 8 ≤ length file.now }
    ensures { result ≡ le8 file.now at }
{
    u64::from_le_bytes(bytes_at(file, at))
}

// The signed number that a byte holds: 128 to 255 stand for −128 to −1.
pub fn signed_byte(byte: u8) -> i8
    ensures { result ≡ signed_byte byte }
{
    byte.cast_signed()
}

// The byte that holds a signed number.
pub fn byte_of_signed(number: i8) -> u8
    ensures { result ≡ byte_of_signed number }
{
    number.cast_unsigned()
}
