//! Two numbers in one text, as `3-7`: the functions of a field with `with`.

use serde::{Deserialize, Deserializer, Format, Serializer};
use std::alloc::Global;

/// Writes the pair.
pub fn serialize<S: Serializer>(pair: &(u8, u8), out: &mut S) -> Result<(), S::Error> {
    let (a, b) = pair;
    out.collect_str(&format_args!("{a}-{b}"))
}

/// Reads a pair.
pub fn deserialize<'de, F: Format>(
    alloc: Global,
    from: &mut Deserializer<'de, '_, F>,
) -> Result<(u8, u8), F::Error> {
    let text = String::deserialize(alloc, from)?;
    let Some((a, b)) = text.as_str().split_once("-") else {
        return Err(from.custom("no dash"));
    };
    match (a.parse::<u8>(), b.parse::<u8>()) {
        (Ok(a), Ok(b)) => Ok((a, b)),
        _ => Err(from.custom("no numbers")),
    }
}
