//! The types of `qs_callers`, with derives in place of `Compound`, and types for the attributes.

mod dashed;
mod enums;
mod lists;
mod named;
mod plain;
mod values;

pub use enums::{Adjacent, Choice, Contact, Spot, Tagged};
pub use lists::{Folder, Lists, Maps};
pub use named::{Listing, Named, Shown};
pub use plain::{Account, Labels, Order, Payment, Profile, Trip};
pub use values::{Numbers, Texts, Units, Wide};
