//! Hands texts out to the caller.

/// Copies the text to the front of `out`, if it fits, and sets `len` to its length.
pub(crate) fn hand_out(text: &[u8], out: &mut [u8], len: &mut usize) {
    if text.len() <= out.len() {
        out[..text.len()].copy_from_slice(text);
    }
    *len = text.len();
}
