//! Escapes.

ghost use Rattle.std.specs.Prelude.{◌≡◌, ◌⊎◌};
ghost use Rattle.qs_spec.specs.Escape.{decoded, encoded};
ghost use Rattle.qs_c.specs.Answer.{IsHandedOut, LeavesNothing};
ghost use Rattle.qs_c.specs.Status.{IsDone};

use crate::answer::{Answer, fail, give, given};
use crate::failure::Failure;
use qs_tree::{decode, encode};
use std::alloc::Global;

/// Decodes the bytes: `+` is a space, and `%` with two hexadecimal digits is one byte.
///
/// Returns 0 and puts the result at the front of `out`, or returns 1 if it doesn't fit there. `answer.len` is its length. The only error
/// is 2: an allocation failed.
///
/// It allocates for the result if there is a `+` or a `%`, and frees it before it returns. It takes linear time.
///
/// ```
/// uint32_t status = qs_decode(QS_TEXT("a%5Bb%5D=1"), QS_ROOM(out), &answer); // a[b]=1
/// ```
#[unsafe(no_mangle)]
pub extern "C" fn qs_decode(alloc: Global, bytes: &[u8], out: &mut [u8], answer: &mut Answer) -> u32
    ensures done { IsDone result → IsHandedOut (decoded bytes.now) out.old out.new result answer.new.len }
    ensures position { IsDone result → answer.new.position ≡ 0 }
    ensures errors { IsDone result ⊎ (result ≡ 2) }
    ensures memory { result ≡ 2 → LeavesNothing out.old out.new answer.new }
{
    match decode(alloc, given(bytes)) {
        Ok(text) => give(text.as_slice(), out, answer),
        Err(_) => fail(Failure::out_of_memory(), out, answer),
    }
}

/// Encodes the bytes for form mode (if `form` is true) or query mode.
///
/// Returns 0 and puts the result at the front of `out`, or returns 1 if it doesn't fit there. `answer.len` is its length. The only error
/// is 2: an allocation failed.
///
/// It allocates for the result, and frees it before it returns. It takes linear time.
///
/// ```
/// uint32_t status = qs_encode(false, QS_TEXT("100% a+b"), QS_ROOM(out), &answer); // 100%25+a%2Bb
/// ```
#[unsafe(no_mangle)]
pub extern "C" fn qs_encode(
    alloc: Global,
    form: bool,
    bytes: &[u8],
    out: &mut [u8],
    answer: &mut Answer,
) -> u32
    ensures done { IsDone result → IsHandedOut (encoded form bytes.now) out.old out.new result answer.new.len }
    ensures position { IsDone result → answer.new.position ≡ 0 }
    ensures errors { IsDone result ⊎ (result ≡ 2) }
    ensures memory { result ≡ 2 → LeavesNothing out.old out.new answer.new }
{
    let mut text = Vec::new(alloc);
    match encode(given(bytes), form, &mut text) {
        Ok(()) => give(&text, out, answer),
        Err(_) => fail(Failure::out_of_memory(), out, answer),
    }
}
