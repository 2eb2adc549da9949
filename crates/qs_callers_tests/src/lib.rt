//! Tests of users' types and calls: each call once, rejected inputs, and values that come back.
#![tactic(auto)]

#[cfg(test)]
mod by_hand;
#[cfg(test)]
mod claims;
#[cfg(test)]
mod derived;
#[cfg(test)]
mod fields;
#[cfg(test)]
mod first_errors;
#[cfg(test)]
mod form_page;
#[cfg(test)]
mod guard;
#[cfg(test)]
mod halves;
#[cfg(test)]
mod helpers;
#[cfg(test)]
mod kinds;
#[cfg(test)]
mod nodes;
#[cfg(test)]
mod pages;
#[cfg(test)]
mod parts;
#[cfg(test)]
mod reading;
#[cfg(test)]
mod round_trips;
#[cfg(test)]
mod same;
#[cfg(test)]
mod strict;
#[cfg(test)]
mod traced;
#[cfg(test)]
mod tuples;
#[cfg(test)]
mod values;
#[cfg(test)]
mod web;
#[cfg(test)]
mod writing;
