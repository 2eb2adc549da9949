//! Shapes and data as words separated by spaces, each before its parts: `Seq Option U8` and `Seq:2 None Some Unsigned:7`.
//!
//! A colon is followed by a scalar's text, the count of parts, or names, escaped as in form mode. The name of an optional field is
//! followed by `?`, and the count of an enum by its variants: `Enum:2 unit:a struct:b:x:y? U8 Text`. A variant that rejects unknown
//! keys is `strict` instead of `struct`.

use crate::build::Build;
use crate::claims::{made, present};
use qs_tree::decode;
use serde_qs::{Data, Field, KeyShape, Shape, Variant, VariantKind};
use std::process::Abort;

// Decodes a text with escapes.
fn bytes<R: Abort>(b: &Build<'_, R>, text: &str) -> Vec<u8> {
    let decoded = made(b.rt, decode(b.alloc, text.as_bytes()));
    made(b.rt, Vec::from_slice(b.alloc, &decoded))
}

// Returns the text of a word, decoded.
fn string<R: Abort>(b: &Build<'_, R>, text: &str) -> String {
    made(b.rt, String::from_utf8(bytes(b, text)))
}

// Removes the last part, and returns it.
fn part<R: Abort, T: Drop>(b: &Build<'_, R>, parts: &mut Vec<T>) -> T {
    present(b.rt, parts.pop(), "a part")
}

// Removes the last part, and returns it in a box.
fn boxed<R: Abort, T: Drop>(b: &Build<'_, R>, parts: &mut Vec<T>) -> Box<T> {
    made(b.rt, Box::new(b.alloc, part(b, parts)))
}

// Parses the text as a count.
fn number_of<R: Abort>(b: &Build<'_, R>, count: &str) -> u32 {
    made(b.rt, count.parse::<u32>())
}

// Returns as many parts as the text says, beginning with the last.
fn counted<R: Abort, T: Drop>(b: &Build<'_, R>, count: &str, parts: &mut Vec<T>) -> Vec<T> {
    let mut counted = Vec::new(b.alloc);
    for _ in 0..number_of(b, count) {
        let part = part(b, parts);
        made(b.rt, counted.push(part));
    }
    counted
}

// Returns a field for each name after the first `first` texts of the word, with the shapes beginning with the last.
fn fields<R: Abort>(
    b: &Build<'_, R>,
    word: &str,
    first: usize,
    shapes: &mut Vec<Shape>,
) -> Vec<Field> {
    let mut fields = Vec::new(b.alloc);
    for text in word.split(':').skip(first) {
        let field = field(b, text, part(b, shapes));
        made(b.rt, fields.push(field));
    }
    fields
}

// Returns the field of this name and shape, which may be left out if `?` ends the name.
fn field<R: Abort>(b: &Build<'_, R>, text: &str, shape: Shape) -> Field {
    match text.strip_suffix('?') {
        Some(name) => b.optional(&string(b, name), shape),
        None => b.required(&string(b, text), shape),
    }
}

// Returns the key shape of this name.
fn key<R: Abort>(b: &Build<'_, R>, word: &str) -> KeyShape {
    match word {
        "Bool" => KeyShape::Bool,
        "U8" => KeyShape::U8,
        "U16" => KeyShape::U16,
        "U32" => KeyShape::U32,
        "U64" => KeyShape::U64,
        "I8" => KeyShape::I8,
        "I16" => KeyShape::I16,
        "I32" => KeyShape::I32,
        "I64" => KeyShape::I64,
        "Char" => KeyShape::Char,
        "Text" => KeyShape::Text,
        _ => KeyShape::Variants(variant_names(b, word)),
    }
}

// Returns the names after the first text of the word.
fn variant_names<R: Abort>(b: &Build<'_, R>, word: &str) -> Vec<String> {
    let (_, words) = present(b.rt, word.split_once(':'), word);
    let mut names = Vec::new(b.alloc);
    for name in words.split(':') {
        made(b.rt, names.push(string(b, name)));
    }
    names
}

// Returns the variant of this word, if it is one.
fn variant<R: Abort>(b: &Build<'_, R>, word: &str, shapes: &mut Vec<Shape>) -> Option<Variant> {
    let (kind, rest) = word.split_once(':').unwrap_or((word, ""));
    let (name, parts) = rest.split_once(':').unwrap_or((rest, ""));
    let kind = match kind {
        "unit" => VariantKind::Unit,
        "newtype" => VariantKind::Newtype(boxed(b, shapes)),
        "tuple" => VariantKind::Tuple(counted(b, parts, shapes)),
        "struct" => VariantKind::Struct(fields(b, word, 2, shapes)),
        "strict" => VariantKind::StrictStruct(fields(b, word, 2, shapes)),
        _ => return None,
    };
    Some(b.variant(&string(b, name), kind))
}

// Returns the shape of a scalar.
fn scalar<R: Abort>(b: &Build<'_, R>, word: &str) -> Shape {
    match word {
        "Unit" => Shape::Unit,
        "Bool" => Shape::Bool,
        "U8" => Shape::U8,
        "U16" => Shape::U16,
        "U32" => Shape::U32,
        "U64" => Shape::U64,
        "I8" => Shape::I8,
        "I16" => Shape::I16,
        "I32" => Shape::I32,
        "I64" => Shape::I64,
        "Char" => Shape::Char,
        "Text" => Shape::Text,
        "Bytes" => Shape::Bytes,
        "Any" => Shape::Any,
        "Ignored" => Shape::Ignored,
        _ => panic!(b.rt; "{word}"),
    }
}

/// Returns the shape of these words.
pub fn shape<R: Abort>(b: &Build<'_, R>, words: &str) -> Shape {
    let mut shapes = Vec::new(b.alloc);
    let mut variants = Vec::new(b.alloc);
    for word in words.rsplit(' ') {
        if let Some(variant) = variant(b, word, &mut shapes) {
            made(b.rt, variants.push(variant));
            continue;
        }
        let next = next_shape(b, word, &mut shapes, &mut variants);
        made(b.rt, shapes.push(next));
    }
    part(b, &mut shapes)
}

// Returns the shape of this word. The shapes of the words after it were made before.
fn next_shape<R: Abort>(
    b: &Build<'_, R>,
    word: &str,
    shapes: &mut Vec<Shape>,
    variants: &mut Vec<Variant>,
) -> Shape {
    let (kind, rest) = word.split_once(':').unwrap_or((word, ""));
    match kind {
        "Option" => Shape::Option(boxed(b, shapes)),
        "Newtype" => Shape::Newtype(boxed(b, shapes)),
        "Seq" => Shape::Seq(boxed(b, shapes)),
        "Tuple" => Shape::Tuple(counted(b, rest, shapes)),
        "Map" => Shape::Map(key(b, rest), boxed(b, shapes)),
        "Struct" => Shape::Struct(fields(b, word, 1, shapes)),
        "StrictStruct" => Shape::StrictStruct(fields(b, word, 1, shapes)),
        "Enum" => Shape::Enum(counted(b, rest, variants)),
        _ => scalar(b, kind),
    }
}

// Returns a member for each name after the first `first` texts of the word, with the data beginning with the last.
fn members<R: Abort>(
    b: &Build<'_, R>,
    word: &str,
    first: usize,
    data: &mut Vec<Data>,
) -> Vec<(String, Data)> {
    let mut members = Vec::new(b.alloc);
    for name in word.split(':').skip(first) {
        let member = (string(b, name), part(b, data));
        made(b.rt, members.push(member));
    }
    members
}

// Returns as many keys, each with its value, as the text says.
fn pairs<R: Abort>(b: &Build<'_, R>, count: &str, data: &mut Vec<Data>) -> Vec<(Data, Data)> {
    let mut pairs = Vec::new(b.alloc);
    for _ in 0..number_of(b, count) {
        let pair = (part(b, data), part(b, data));
        made(b.rt, pairs.push(pair));
    }
    pairs
}

// Returns a variant that holds something.
fn holding<R: Abort>(b: &Build<'_, R>, word: &str, data: &mut Vec<Data>) -> Data {
    let (kind, rest) = word.split_once(':').unwrap_or((word, ""));
    let (name, parts) = rest.split_once(':').unwrap_or((rest, ""));
    let name = string(b, name);
    match kind {
        "NewtypeVariant" => Data::NewtypeVariant(name, boxed(b, data)),
        "TupleVariant" => Data::TupleVariant(name, counted(b, parts, data)),
        "StructVariant" => Data::StructVariant(name, members(b, word, 2, data)),
        _ => panic!(b.rt; "{kind}"),
    }
}

// Returns the first character of a text, decoded.
fn character<R: Abort>(b: &Build<'_, R>, text: &str) -> char {
    present(b.rt, string(b, text).chars().next(), text)
}

/// Returns the data of these words.
pub fn data<R: Abort>(b: &Build<'_, R>, words: &str) -> Data {
    let mut data = Vec::new(b.alloc);
    for word in words.rsplit(' ') {
        let next = next_data(b, word, &mut data);
        made(b.rt, data.push(next));
    }
    part(b, &mut data)
}

// Returns the data that begins with this word. The data of the words after it was made before.
fn next_data<R: Abort>(b: &Build<'_, R>, word: &str, data: &mut Vec<Data>) -> Data {
    let (kind, rest) = word.split_once(':').unwrap_or((word, ""));
    match kind {
        "Unit" => Data::Unit,
        "None" => Data::None,
        "Bool" => Data::Bool(rest == "true"),
        "Unsigned" => Data::Unsigned(made(b.rt, rest.parse::<u64>())),
        "Signed" => Data::Signed(made(b.rt, rest.parse::<i64>())),
        "Char" => Data::Char(character(b, rest)),
        "Text" => Data::Text(string(b, rest)),
        "Bytes" => Data::Bytes(bytes(b, rest)),
        "UnitVariant" => Data::UnitVariant(string(b, rest)),
        "Some" => Data::Some(boxed(b, data)),
        "Newtype" => Data::Newtype(boxed(b, data)),
        "Seq" => Data::Seq(counted(b, rest, data)),
        "Tuple" => Data::Tuple(counted(b, rest, data)),
        "Map" => Data::Map(pairs(b, rest, data)),
        "Struct" => Data::Struct(members(b, word, 1, data)),
        _ => holding(b, word, data),
    }
}
