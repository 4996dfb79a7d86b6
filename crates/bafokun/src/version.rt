//! The version of the library.

ghost use Rattle.std.specs.Prelude.{◌≡◌, ◌*◌};

/// The version of the library, a byte for each of its three numbers, the last in the lowest byte:
/// `BAFOKUN_VERSION_NUMBER` of the header that belongs to it.
#[unsafe(no_mangle)]
pub extern "C" fn bafokun_version() -> u32
    ensures { result ≡ 39 * 256 }
{
    0x00_27_00
}
