//! The search page, the posted form and the client again, with types that have serde's derives.

mod client;
mod order;
mod products;

pub use client::{served, target};
pub use order::{Address, Order, ordered};
pub use products::{Products, Range, next_page};
