// Bytes, and numbers in them, the lowest byte first.
ghost use Rattle.std.specs.Prelude.{◌≡◌, ◌+◌, ◌≤◌, min, length, slice_index};
ghost use Rattle.values.specs.Bytes.{number_at};

// A number has at most the bytes of a u64.
const MOST: usize = 8;

// The byte k places after `at`, or 0 past the end.
pub fn byte_at(s: &[u8], at: usize, k: usize) -> u64
    ensures { result ≡ slice_index s.now (at + k) }
{
    match s.get(at..) {
        Some(rest) => rest.get(k).map_or(0, |byte| u64::from(*byte)),
        None => 0,
    }
}

// The number in `width` bytes from `at` on. At most 8 bytes are read, and those past the end are 0.
pub fn number_at(s: &[u8], at: usize, width: usize) -> u64
    ensures { result ≡ number_at (min 8 width) s.now at }
{
    match s.get(at..) {
        Some(rest) => number_in(&rest[..rest.len().min(width).min(MOST)]),
        None => 0,
    }
}

// The number in these bytes.
pub(crate) fn number_in(bytes: &[u8]) -> u64
    requires { length bytes.now ≤ 8 }
    ensures { result ≡ number_at (length bytes.now) bytes.now 0 }
{
    let mut whole = [0; MOST];
    whole[..bytes.len()].copy_from_slice(bytes);
    u64::from_le_bytes(whole)
}
