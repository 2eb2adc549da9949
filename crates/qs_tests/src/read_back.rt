//! Plain data that fits a shape, read back from its entries in other orders, and what isn't read back.

mod cases;
mod entries;
mod formats;
mod golden;
mod losses;
mod many;
mod orders;
mod premises;
mod random;
mod random_lists;
