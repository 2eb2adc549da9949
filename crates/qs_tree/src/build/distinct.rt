//! Whether leaves have distinct keys.
ghost use Rattle.std.specs.Prelude.{◌≡◌, IfOk, IsTrue};
ghost use Rattle.qs_tree.specs.tree.Views.{segment_of_key};
ghost use Rattle.qs_tree.specs.internal.build.Distinct.{HaveDistinctKeys, hash_of};

use crate::tree::key::Key;
use crate::tree::value::ParsedValue;
use std::alloc::{AllocError, Global};
use std::hash::{FoldHasher, Hasher};

/// Returns whether all keys have distinct hashes, and so are distinct. Takes eight bytes for each key.
pub(crate) fn have_distinct_keys<'qs>(
    alloc: Global,
    leaves: &[(Key<'qs>, ParsedValue<'qs>)],
) -> Result<bool, AllocError>
    ensures { IfOk result (λ distinct. IsTrue distinct → HaveDistinctKeys leaves.now) }
{
    let mut hashes: Vec<u64> = leaves.iter().map(|leaf| hash(&leaf.0)).collect(alloc)?;
    hashes.sort_unstable();
    Ok(hashes.is_sorted_by(|left, right| left < right))
}

// Returns the hash of a key.
fn hash<'qs>(key: &Key<'qs>) -> u64
    ensures { result ≡ hash_of (segment_of_key key.now) }
{
    match key {
        Key::Int(number) => u64::from(*number),
        Key::String(text) => {
            let mut hasher = FoldHasher::default();
            hasher.write(text.as_slice());
            hasher.finish()
        }
    }
}
