//! Numbers at an offset of a file, the highest byte first.
ghost use Rattle.std.specs.Prelude.{◌≡◌, ◌+◌, ◌≤◌, length};
ghost use Rattle.mail_index.specs.Fields.{u32_at as u32_in, u64_at as u64_in, are_zeros_at as are_zeros_in};

/// The four bytes from `at` on, as a number.
pub(crate) fn u32_at(bytes: &[u8], at: usize) -> u32
    requires { at + 4 ≤ length bytes.now }
    ensures { result ≡ u32_in bytes.now at }
{
    let field = bytes.split_at(at).1.first_chunk::<4>().unwrap();
    u32::from_be_bytes(*field)
}

/// The eight bytes from `at` on, as a number.
pub(crate) fn u64_at(bytes: &[u8], at: usize) -> u64
    requires { at + 8 ≤ length bytes.now }
    ensures { result ≡ u64_in bytes.now at }
{
    let field = bytes.split_at(at).1.first_chunk::<8>().unwrap();
    u64::from_be_bytes(*field)
}

/// Whether the three bytes from `at` on are zeros.
pub(crate) fn are_zeros_at(bytes: &[u8], at: usize) -> bool
    requires { at + 3 ≤ length bytes.now }
    ensures { result ≡ are_zeros_in bytes.now at }
{
    bytes.split_at(at).1.starts_with(&[0, 0, 0])
}
