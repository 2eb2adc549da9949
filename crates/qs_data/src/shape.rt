//! Shapes: what is read from a querystring.

mod distinct;
mod fits;
mod shape;
mod width;

pub(crate) use distinct::is_field_name;
pub use shape::{Field, KeyShape, Shape, Variant, VariantKind};
pub use width::Width;
