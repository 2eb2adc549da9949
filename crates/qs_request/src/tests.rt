//! Requests as a server receives them.

mod basket;
mod derived;
mod params;
mod requests;
mod users;
