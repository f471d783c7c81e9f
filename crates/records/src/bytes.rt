ghost use Rattle.std.specs.Prelude.{◌≡◌, ◌+◌, ◌≤◌, length};
ghost use Rattle.records.specs.Numbers.{nat16, nat32, int16, int32};

// One line for each type of number, over that type's own method. A trait of the four would hold the
// same four lines, each in an impl; the shelf's readers of bytes take a slice cut to size, which asks
// the same of the place. The bytes stay a slice and the place a number, as an index asks of every
// slice.

/// The number in the two bytes at a place.
pub(crate) fn read_u16(bytes: &[u8], at: usize) -> u16
    requires { at + 2 ≤ length bytes.now }
    ensures { result ≡ nat16 bytes.now at }
{
    u16::from_be_bytes([bytes[at], bytes[at + 1]])
}

/// The number in the four bytes at a place.
pub(crate) fn read_u32(bytes: &[u8], at: usize) -> u32
    requires { at + 4 ≤ length bytes.now }
    ensures { result ≡ nat32 bytes.now at }
{
    u32::from_be_bytes([bytes[at], bytes[at + 1], bytes[at + 2], bytes[at + 3]])
}

/// The signed number in the two bytes at a place.
pub(crate) fn read_i16(bytes: &[u8], at: usize) -> i32
    requires { at + 2 ≤ length bytes.now }
    ensures { result ≡ int16 bytes.now at }
{
    i16::from_be_bytes([bytes[at], bytes[at + 1]]) as i32
}

/// The signed number in the four bytes at a place.
pub(crate) fn read_i32(bytes: &[u8], at: usize) -> i32
    requires { at + 4 ≤ length bytes.now }
    ensures { result ≡ int32 bytes.now at }
{
    i32::from_be_bytes([bytes[at], bytes[at + 1], bytes[at + 2], bytes[at + 3]])
}
