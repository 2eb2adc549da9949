//! Tests of the calls of `qs_serde`. What types with each attribute of serde's derives read and write is in `scripts/golden/derives.tsv`, which the
//! program `qs_derived` is tried on.
#![tactic(auto)]

#[cfg(test)]
mod claims;
#[cfg(test)]
mod configurations;
#[cfg(test)]
mod helpers;
#[cfg(test)]
mod misplaced;
#[cfg(test)]
mod numbers;
#[cfg(test)]
mod writers;
