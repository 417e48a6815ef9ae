//! Sizes and counts for C, in 32 and in 16 bits.
ghost use Rattle.std.specs.Prelude.{◌≡◌, ◌<◌};

/// Returns a size or a count in 32 bits.
pub fn in_32_bits(count: usize) -> u32
    requires { count < 4294967296 }
    ensures { result ≡ count }
{
    count as u32
}

/// Returns a count in 16 bits.
pub fn in_16_bits(count: usize) -> u16
    requires { count < 65536 }
    ensures { result ≡ count }
{
    count as u16
}
