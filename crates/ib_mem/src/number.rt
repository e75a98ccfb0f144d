ghost use Rattle.std.specs.Prelude.{◌≡◌, ◌≤◌, length};
ghost use Rattle.ib_mem.specs.Memory.{number_of, bytes_of};

/// The number that at most eight bytes spell, the lowest first.
pub(crate) fn read_number(bytes: &[u8]) -> u64
    requires { length bytes.now ≤ 8 }
    ensures { result ≡ number_of bytes.now }
{
    match bytes {
        [] => 0,
        [lowest, higher @ ..] => u64::from(*lowest) + 256 * read_number(higher),
    }
}

/// Writes the lowest bytes of a number, the lowest first.
pub(crate) fn write_number(bytes: &mut [u8], number: u64)
    ensures { bytes.new ≡ bytes_of (length bytes.old) number }
{
    let mut left = number;
    for byte in bytes.iter_mut() {
        *byte = (left % 256) as u8;
        left /= 256;
    }
}
