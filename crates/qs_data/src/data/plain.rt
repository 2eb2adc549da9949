//! Data that can be read back.

ghost use Rattle.std.specs.Prelude.{ℕ, ◌≡◌, ◌&&◌, ◌||◌, not, List, Some, IfOk, OnOk};
ghost use Rattle.std.specs.List.{list_any};
ghost use Rattle.std.specs.Str.{bytes_eq};
ghost use Rattle.qs_spec.specs.Plain.{is_plain, are_plain, are_plain_pairs, are_plain_members, is_optional, is_plain_name, is_plain_key, is_written_key, is_member_name, written_keys_differ, member_names_differ, has_members, has_values, are_few};
ghost use Rattle.qs_spec.specs.Scalar.{is_numeral};
ghost use Rattle.qs_spec.specs.Token.{is_bracket};
ghost use Rattle.qs_data.specs.data.Views.{data_of, values_in, pairs_in, members_in};
ghost use Rattle.qs_data.specs.data.internal.Texts.{holds_text};

use crate::data::Data;
use crate::write::{Room, Scalar};
use qs_tree::Config;
use std::alloc::{AllocError, Global};
use std::collections::BTreeSet;

/// Up to how many keys of a map, or names of a struct, are always compared pairwise.
const FEW: usize = 16;

impl Data {
    /// Returns whether the data can be read back. If so, and if it is written in the indexed format within the depth limit, each shape
    /// that it [fits](Shape::fits) and whose names differ reads it back, from its entries in any order.
    ///
    /// All of these must hold at every depth:
    /// - no option holds an option, directly or through newtypes;
    /// - each struct, struct variant and tuple variant has at least one part;
    /// - the names in a struct differ, and so do the texts of the keys in a map; no key is a byte string;
    /// - no name or key is empty, or is a zero with further digits after it; at form encoding none holds a bracket;
    /// - a unit variant has a name;
    /// - a list has at most 4,294,967,295 elements.
    ///
    /// Of the configuration, only the encoding matters. Time grows with the size of the data and the logarithm of the number of keys
    /// in a map, and stack with the depth of the data. If a map has more than 16 keys, or a struct more than 16 names, they are put
    /// into a sorted set, which allocates. If an allocation fails, they are compared pairwise.
    ///
    /// ```
    /// if !data.is_plain(config) {
    ///     return Err(Rejected::NotReadBack);
    /// }
    /// ```
    pub fn is_plain(&self, config: Config) -> bool
        ensures { result ≡ is_plain config.is_form (data_of self.now) }
    {
        is_plain(self, config.get_form())
    }
}

// Returns whether data can be read back, with form encoding or without it.
#[cycle(plain)]
fn is_plain(datum: &Data, is_form: bool) -> bool
    ensures { result ≡ is_plain is_form (data_of datum.now) }
{
    match datum {
        Data::Some(part) => !is_optional(part) && is_plain(part, is_form),
        Data::Newtype(part) => is_plain(part, is_form),
        Data::Seq(items) | Data::Tuple(items) => are_plain_items(items, is_form),
        Data::Map(pairs) => written_keys_differ(pairs) && are_plain_pairs(pairs, is_form),
        Data::Struct(members) => are_plain_fields(members, is_form),
        Data::UnitVariant(name) => !name.is_empty(),
        Data::NewtypeVariant(name, part) => {
            is_plain_name(name.as_bytes(), is_form) && is_plain(part, is_form)
        }
        Data::TupleVariant(name, items) => {
            is_plain_name(name.as_bytes(), is_form)
                && (has_values(items) && are_plain_items(items, is_form))
        }
        Data::StructVariant(name, members) => {
            is_plain_name(name.as_bytes(), is_form) && are_plain_fields(members, is_form)
        }
        _ => true,
    }
}

// Returns whether the elements of a list can be read back, and there is an index for each.
#[cycle(plain)]
fn are_plain_items(items: &Vec<Data>, is_form: bool) -> bool
    ensures { let ds = values_in items.now.items in result ≡ (are_few ds && are_plain is_form ds) }
{
    items.len() <= u32::MAX as usize && are_plain(items, is_form)
}

// Returns whether each item can be read back.
#[cycle(plain)]
fn are_plain(items: &Vec<Data>, is_form: bool) -> bool
    ensures { result ≡ are_plain is_form (values_in items.now.items) }
{
    for item in items {
        if !is_plain(item, is_form) {
            return false;
        }
    }
    true
}

// Returns whether each key of a map and its value can be read back.
#[cycle(plain)]
fn are_plain_pairs(pairs: &Vec<(Data, Data)>, is_form: bool) -> bool
    ensures { result ≡ are_plain_pairs is_form (pairs_in pairs.now.items) }
{
    for pair in pairs {
        if !is_plain_key(&pair.0, is_form) || !is_plain(&pair.1, is_form) {
            return false;
        }
    }
    true
}

// Returns whether a struct or a struct variant has fields, their names differ, and each can be read back.
#[cycle(plain)]
fn are_plain_fields(members: &Vec<(String, Data)>, is_form: bool) -> bool
    ensures { let ms = members_in members.now.items in
        result ≡ (has_members ms && member_names_differ ms && are_plain_members is_form ms) }
{
    !members.is_empty() && (member_names_differ(members) && are_plain_members(members, is_form))
}

// Returns whether each name and its value can be read back.
#[cycle(plain)]
fn are_plain_members(members: &Vec<(String, Data)>, is_form: bool) -> bool
    ensures { result ≡ are_plain_members is_form (members_in members.now.items) }
{
    for member in members {
        if !is_plain_name(member.0.as_bytes(), is_form) || !is_plain(&member.1, is_form) {
            return false;
        }
    }
    true
}

// Returns whether there is an item.
fn has_values(items: &[Data]) -> bool
    ensures { result ≡ has_values (values_in items.now) }
{
    !items.is_empty()
}

// Returns whether the data is an option, possibly within newtypes.
fn is_optional(datum: &Data) -> bool
    ensures { result ≡ is_optional (data_of datum.now) }
{
    match datum {
        Data::None | Data::Some(_) => true,
        Data::Newtype(part) => is_optional(part),
        _ => false,
    }
}

// Returns whether a name or the text of a key is read back.
fn is_plain_name(name: &[u8], is_form: bool) -> bool
    ensures { result ≡ is_plain_name is_form name.now }
{
    !name.is_empty()
        && !(is_numeral(name) && name.len() > 1 && name[0] == b'0')
        && !(is_form && holds_bracket(name))
}

// Returns whether the bytes are digits, at least one.
fn is_numeral(bytes: &[u8]) -> bool
    ensures { result ≡ is_numeral bytes.now }
{
    for byte in bytes {
        if !byte.is_ascii_digit() {
            return false;
        }
    }
    !bytes.is_empty()
}

// Returns whether one of the bytes is a bracket.
fn holds_bracket(bytes: &[u8]) -> bool
    ensures { result ≡ list_any is_bracket bytes.now }
{
    bytes.iter().any(|byte| *byte == b'[' || *byte == b']')
}

// Returns whether the key of a map is read back.
fn is_plain_key(key: &Data, is_form: bool) -> bool
    ensures { result ≡ is_plain_key is_form (data_of key.now) }
{
    match key {
        Data::Bytes(_) => false,
        _ => match Scalar::of(key) {
            Some(key) => is_plain_name(key.text(&mut Room::new()), is_form),
            None => false,
        },
    }
}

// Returns whether the keys of a map are written differently.
fn written_keys_differ(pairs: &Vec<(Data, Data)>) -> bool
    ensures { result ≡ written_keys_differ (pairs_in pairs.now.items) }
{
    if pairs.len() > FEW {
        if let Ok(differ) = many_keys_differ(pairs, *pairs.allocator()) {
            return differ;
        }
    }
    few_keys_differ(pairs)
}

// Returns whether keys are written differently, by a sorted set of their texts. Returns an error only if an allocation failed.
fn many_keys_differ(pairs: &[(Data, Data)], alloc: Global) -> Result<bool, AllocError>
    ensures { IfOk result (λ differ. differ ≡ written_keys_differ (pairs_in pairs.now)) }
{
    let mut texts = BTreeSet::new(alloc);
    let mut differ = true;
    for i in (0..pairs.len()).rev() {
        if let Some(key) = Scalar::of(&pairs[i].0) {
            differ &= add_text(key.text(&mut Room::new()), alloc, &mut texts)?;
        }
    }
    Ok(differ)
}

// Returns whether keys are written differently, by comparing each with those after it.
fn few_keys_differ(pairs: &[(Data, Data)]) -> bool
    ensures { result ≡ written_keys_differ (pairs_in pairs.now) }
{
    for (i, pair) in pairs.iter().enumerate() {
        if let Some(key) = Scalar::of(&pair.0) {
            if is_written_key(key.text(&mut Room::new()), &pairs[i + 1..]) {
                return false;
            }
        }
    }
    true
}

// Returns whether one of the keys has this text.
fn is_written_key(text: &[u8], pairs: &[(Data, Data)]) -> bool
    ensures { result ≡ is_written_key (Some text.now) (pairs_in pairs.now) }
{
    for pair in pairs {
        if let Some(key) = Scalar::of(&pair.0) {
            if key.text(&mut Room::new()) == text {
                return true;
            }
        }
    }
    false
}

/// Adds a text to a set, and returns whether it is new.
pub(crate) fn add_text(
    text: &[u8],
    alloc: Global,
    texts: &mut BTreeSet<Vec<u8>>,
) -> Result<bool, AllocError>
    ensures added { IfOk result (λ added. added ≡ not (holds_text texts.old text.now)) }
    ensures set { OnOk result ((t : List ℕ) → holds_text texts.new t ≡ (bytes_eq text.now t || holds_text texts.old t)) }
{
    Ok(texts.insert(Vec::from_slice(alloc, text)?)?)
}

// Returns whether the names of fields differ.
fn member_names_differ(members: &Vec<(String, Data)>) -> bool
    ensures { result ≡ member_names_differ (members_in members.now.items) }
{
    if members.len() > FEW {
        if let Ok(differ) = many_names_differ(members, *members.allocator()) {
            return differ;
        }
    }
    few_names_differ(members)
}

// Returns whether the names of fields differ, by a sorted set of them. Returns an error only if an allocation failed.
fn many_names_differ(members: &[(String, Data)], alloc: Global) -> Result<bool, AllocError>
    ensures { IfOk result (λ differ. differ ≡ member_names_differ (members_in members.now)) }
{
    let mut names = BTreeSet::new(alloc);
    let mut differ = true;
    for i in (0..members.len()).rev() {
        differ &= add_text(members[i].0.as_bytes(), alloc, &mut names)?;
    }
    Ok(differ)
}

// Returns whether the names of fields differ, by comparing each with those after it.
fn few_names_differ(members: &[(String, Data)]) -> bool
    ensures { result ≡ member_names_differ (members_in members.now) }
{
    for (i, member) in members.iter().enumerate() {
        if is_member_name(&members[i + 1..], &member.0) {
            return false;
        }
    }
    true
}

// Returns whether one of the fields has this name.
fn is_member_name(members: &[(String, Data)], name: &str) -> bool
    ensures { result ≡ is_member_name name.now (members_in members.now) }
{
    members.iter().any(|member| member.0.as_str() == name)
}
