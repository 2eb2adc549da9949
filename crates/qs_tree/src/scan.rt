//! From bytes to pairs: tokens, the cursor that takes them, and the pair that they make.

pub(crate) mod cursor;
pub(crate) mod pair;
pub(crate) mod parser;
pub(crate) mod path;
mod raw;
