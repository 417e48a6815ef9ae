//! The version of the library, and the number of its binary interface (ABI). A program reads both before any other call.
ghost use Rattle.std.specs.Prelude.{◌≡◌};
ghost use Rattle.hc_c.specs.declared.version.TheConstants.{ABI, MAJOR, MINOR, PATCH};

/// The number of the binary interface. It grows with each release that changes or removes a call or a struct.
pub const ABI: u32 = 1;

/// The first number of the version.
pub const MAJOR: u32 = 0;

/// The second number of the version.
pub const MINOR: u32 = 2;

/// The third number of the version.
pub const PATCH: u32 = 0;

/// Returns the number of the binary interface, `ABI`.
#[unsafe(no_mangle)]
pub extern "C" fn zangjulf_abi() -> u32
    ensures { result ≡ ABI }
{
    ABI
}

/// Writes the version: `MAJOR`, `MINOR` and `PATCH`.
#[unsafe(no_mangle)]
pub extern "C" fn zangjulf_version(major: &mut u32, minor: &mut u32, patch: &mut u32)
    ensures major { major.new ≡ MAJOR }
    ensures minor { minor.new ≡ MINOR }
    ensures patch { patch.new ≡ PATCH }
{
    *major = MAJOR;
    *minor = MINOR;
    *patch = PATCH;
}
