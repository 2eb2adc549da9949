//! The values of fields that are missing.

ghost use Rattle.std.specs.Prelude.{[], false, pos};
ghost use Rattle.qs_spec.specs.Data as d;

use super::defaulted::OrDefault;
use crate::traits::Deserialize;
use qs_data::Result;
use std::alloc::Global;
use std::collections::BTreeMap;

impl OrDefault for bool {
    ghost default = { d.boolean false };

    fn missing(_alloc: Global) -> Result<bool> {
        Ok(false)
    }
}

impl OrDefault for u8 {
    ghost default = { d.unsigned 0 };

    fn missing(_alloc: Global) -> Result<u8> {
        Ok(0)
    }
}

impl OrDefault for u16 {
    ghost default = { d.unsigned 0 };

    fn missing(_alloc: Global) -> Result<u16> {
        Ok(0)
    }
}

impl OrDefault for u32 {
    ghost default = { d.unsigned 0 };

    fn missing(_alloc: Global) -> Result<u32> {
        Ok(0)
    }
}

impl OrDefault for u64 {
    ghost default = { d.unsigned 0 };

    fn missing(_alloc: Global) -> Result<u64> {
        Ok(0)
    }
}

impl OrDefault for i8 {
    ghost default = { d.signed (pos 0) };

    fn missing(_alloc: Global) -> Result<i8> {
        Ok(0)
    }
}

impl OrDefault for i16 {
    ghost default = { d.signed (pos 0) };

    fn missing(_alloc: Global) -> Result<i16> {
        Ok(0)
    }
}

impl OrDefault for i32 {
    ghost default = { d.signed (pos 0) };

    fn missing(_alloc: Global) -> Result<i32> {
        Ok(0)
    }
}

impl OrDefault for i64 {
    ghost default = { d.signed (pos 0) };

    fn missing(_alloc: Global) -> Result<i64> {
        Ok(0)
    }
}

impl OrDefault for String {
    ghost default = { d.text [] };

    fn missing(alloc: Global) -> Result<String> {
        Ok(String::new(alloc))
    }
}

impl<T: Deserialize + Drop> OrDefault for Vec<T> {
    ghost default = { d.sequence d.no_values };

    fn missing(alloc: Global) -> Result<Vec<T>> {
        Ok(Vec::new(alloc))
    }
}

impl<T: Deserialize + Drop> OrDefault for BTreeMap<String, T> {
    ghost default = { d.mapping d.no_pairs };

    fn missing(alloc: Global) -> Result<BTreeMap<String, T>> {
        Ok(BTreeMap::new(alloc))
    }
}
