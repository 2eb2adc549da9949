//! Classes of bytes, tested 32 bytes at a time.

ghost use Rattle.std.specs.Prelude.{◌≡◌, ℕ, ◌+◌, ◌≤◌, length, Bool, count_by};
ghost use Rattle.qs_tree.specs.internal.escape.Search.{IsFirstIn, class_mask, first_set};

/// How many bytes are tested at once.
pub(crate) const LANES: usize = 32;

/// A class of bytes.
pub(crate) trait Class: Copy {
    ghost contains: { Self → ℕ → Bool };

    /// Returns a mask with a bit for each of the 32 bytes from `at` on. A bit is set if the byte is in the class.
    fn mask(self, bytes: &[u8], at: usize) -> u64
        requires { at + LANES ≤ length bytes.now }
        ensures { result ≡ class_mask (contains self) bytes.now at LANES };

    /// Returns whether a byte is in the class.
    fn has(self, byte: u8) -> bool
        ensures { result ≡ contains self byte };
}

/// Returns how many of the 32 bytes from `at` on are before the first one in the class.
#[inline(always)]
pub(crate) fn run<C: Class>(class: C, bytes: &[u8], at: usize) -> usize
    requires { at + LANES ≤ length bytes.now }
    ensures { IsFirstIn (C.contains class) bytes.now at LANES result }
{
    first_set(class.mask(bytes, at))
}

/// Returns how many of the bytes are in the class. Tests 32 bytes at a time, and the rest one by one.
pub(crate) fn count<C: Class>(class: C, bytes: &[u8]) -> usize
    ensures { result ≡ count_by (C.contains class) bytes.now }
{
    let mut count = 0;
    let mut at = 0;
    while bytes.len() - at >= LANES {
        count += class.mask(bytes, at).count_ones() as usize;
        at += LANES;
    }
    while at < bytes.len() {
        if class.has(bytes[at]) {
            count += 1;
        }
        at += 1;
    }
    count
}

// Returns the index of the lowest set bit of a mask, or the number of lanes if none is set.
#[inline(always)]
fn first_set(mask: u64) -> usize
    ensures { result ≡ first_set mask LANES }
{
    if mask == 0 {
        LANES
    } else {
        mask.trailing_zeros() as usize
    }
}
