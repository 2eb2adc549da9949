//! Data as JSON.

ghost use Rattle.std.specs.Prelude.{◌≡◌, ◌++◌, [], ◌∷◌, IfOk, OnOk};
ghost use Rattle.json.specs.Token.{begin_object, key as a_key};
ghost use Rattle.json.specs.Tree.{json_tokens};
ghost use Rattle.qs_data.specs.data.Views.{data_of, values_in, pairs_in, members_in};
ghost use Rattle.qs_c.specs.Shown.{json_of, json_items, json_pairs, json_members, byte_items, key_of, array_tokens, object_tokens, json_text};

use json::Writer;
use qs_data::Data;
use std::alloc::{AllocError, Global};

/// Returns the data as JSON without blanks.
pub(crate) fn to_json(alloc: Global, datum: &Data) -> Result<Vec<u8>, AllocError>
    ensures { IfOk result (λ text. text.items ≡ json_text (data_of datum.now)) }
{
    let mut writer = Writer::new(Vec::with_capacity(alloc, 128)?);
    show(alloc, &mut writer, datum)?;
    Ok(writer.into_inner())
}

// Writes the data. Calls itself for each level.
#[cycle(show)]
#[tactic(auto, using(qs_data::proofs::lemmas::data::Levels::levels))]
fn show(alloc: Global, writer: &mut Writer, datum: &Data) -> Result<(), AllocError>
    ensures tokens { OnOk result (writer.new.tokens ≡ writer.old.tokens ++ json_tokens (json_of (data_of datum.now))) }
    ensures before { writer.new.before ≡ writer.old.before }
{
    match datum {
        Data::Unit | Data::None => writer.null(),
        Data::Some(inner) | Data::Newtype(inner) => show(alloc, writer, inner),
        Data::Bool(value) => writer.boolean(*value),
        Data::Unsigned(number) => writer.u64(*number),
        Data::Signed(number) => writer.i64(*number),
        Data::Char(character) => writer.string(character.encode_utf8(&mut [0; 4])),
        Data::Text(text) => writer.string(text),
        Data::Bytes(bytes) => show_bytes(writer, bytes),
        Data::Seq(items) | Data::Tuple(items) => show_items(alloc, writer, items),
        Data::Map(pairs) => show_pairs(alloc, writer, pairs),
        Data::Struct(members) => show_members(alloc, writer, members),
        Data::UnitVariant(name) => writer.string(name),
        Data::NewtypeVariant(name, inner) => {
            begin_variant(writer, name)?;
            show(alloc, writer, inner)?;
            writer.end_object()
        }
        Data::TupleVariant(name, items) => {
            begin_variant(writer, name)?;
            show_items(alloc, writer, items)?;
            writer.end_object()
        }
        Data::StructVariant(name, members) => {
            begin_variant(writer, name)?;
            show_members(alloc, writer, members)?;
            writer.end_object()
        }
    }
}

// Writes the items as an array.
#[cycle(show)]
fn show_items(alloc: Global, writer: &mut Writer, items: &Vec<Data>) -> Result<(), AllocError>
    ensures tokens { OnOk result (writer.new.tokens ≡ writer.old.tokens ++ array_tokens (json_items (values_in items.now.items))) }
    ensures before { writer.new.before ≡ writer.old.before }
{
    writer.begin_array()?;
    for item in items {
        show(alloc, writer, item)?;
    }
    writer.end_array()
}

// Writes the pairs of a map as an object, with the text of each key as its name.
#[cycle(show)]
fn show_pairs(
    alloc: Global,
    writer: &mut Writer,
    pairs: &Vec<(Data, Data)>,
) -> Result<(), AllocError>
    ensures tokens { OnOk result (writer.new.tokens ≡ writer.old.tokens ++ object_tokens (json_pairs (pairs_in pairs.now.items))) }
    ensures before { writer.new.before ≡ writer.old.before }
{
    writer.begin_object()?;
    for pair in pairs {
        show_key(alloc, writer, &pair.0)?;
        show(alloc, writer, &pair.1)?;
    }
    writer.end_object()
}

// Writes the fields as an object.
#[cycle(show)]
fn show_members(
    alloc: Global,
    writer: &mut Writer,
    members: &Vec<(String, Data)>,
) -> Result<(), AllocError>
    ensures tokens { OnOk result (writer.new.tokens ≡ writer.old.tokens ++ object_tokens (json_members (members_in members.now.items))) }
    ensures before { writer.new.before ≡ writer.old.before }
{
    writer.begin_object()?;
    for member in members {
        writer.key(&member.0)?;
        show(alloc, writer, &member.1)?;
    }
    writer.end_object()
}

// Begins the object of a variant, up to the variant's value.
fn begin_variant(writer: &mut Writer, name: &str) -> Result<(), AllocError>
    ensures tokens { OnOk result (writer.new.tokens ≡ writer.old.tokens ++ begin_object ∷ a_key name.now ∷ []) }
    ensures before { writer.new.before ≡ writer.old.before }
{
    writer.begin_object()?;
    writer.key(name)
}

// Writes bytes as an array of numbers.
fn show_bytes(writer: &mut Writer, bytes: &Vec<u8>) -> Result<(), AllocError>
    ensures tokens { OnOk result (writer.new.tokens ≡ writer.old.tokens ++ array_tokens (byte_items bytes.now.items)) }
    ensures before { writer.new.before ≡ writer.old.before }
{
    writer.begin_array()?;
    for byte in bytes {
        writer.u64(u64::from(*byte))?;
    }
    writer.end_array()
}

// Writes the key of a map: the text from which it is read, or an empty one for data that is never a key.
fn show_key(alloc: Global, writer: &mut Writer, key: &Data) -> Result<(), AllocError>
    ensures tokens { OnOk result (writer.new.tokens ≡ writer.old.tokens ++ a_key (key_of (data_of key.now)) ∷ []) }
    ensures before { writer.new.before ≡ writer.old.before }
{
    match key {
        Data::Bool(true) => writer.key("true"),
        Data::Bool(false) => writer.key("false"),
        Data::Unsigned(number) => writer.key(&format!(in alloc; "{number}")?),
        Data::Signed(number) => writer.key(&format!(in alloc; "{number}")?),
        Data::Char(character) => writer.key(character.encode_utf8(&mut [0; 4])),
        Data::Text(text) | Data::UnitVariant(text) => writer.key(text),
        _ => writer.key(""),
    }
}
