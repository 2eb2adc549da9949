//! Structs that reject unknown keys.

/// A struct that rejects unknown keys.
#[derive(Debug, Drop)]
pub struct Strict<T>(pub T);
