//! The version of the library.

ghost use Rattle.std.specs.Prelude.{◌≡◌, ◌+◌, ◌*◌};

/// Returns the version of the library and the number of the notation of shapes: from the highest byte down, 1, 1, 3 and 1.
///
/// It equals `QS_VERSION` if the program was compiled with this library's header. It doesn't allocate, and takes constant time.
///
/// ```
/// if (qs_version() != QS_VERSION) abort(); // the header is of another library
/// ```
#[unsafe(no_mangle)]
pub extern "C" fn qs_version() -> u32
    ensures { result ≡ ((1 * 256 + 1) * 256 + 3) * 256 + 1 }
{
    0x0101_0301
}
