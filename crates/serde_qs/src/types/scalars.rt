//! The unit, booleans, characters and strings.

#![tactic(auto, unfolding(qs_spec::specs::internal::ReadFunction::reads))]

ghost use Rattle.std.specs.Prelude.{Bool, refl, string_bytes};
ghost use Rattle.qs_spec.specs.Data as d;
ghost use Rattle.qs_spec.specs.Fits.{is_scalar};
ghost use Rattle.qs_spec.specs.Shape as s;
ghost use Rattle.serde_qs.specs.Fitting.{fitting};
ghost use Rattle.serde_qs.specs.internal.ComesBack.{boolean_back, character_back, text_back, unit_back};
ghost use Rattle.serde_qs.specs.Meaning.{boolean_in, character_in, text_in, unit_in};
ghost use Rattle.serde_qs.specs.internal.Fits.{string_is_utf8};
ghost use Rattle.serde_qs.specs.Tables.{table_of, table_with};

use crate::traits::{Deserialize, RoundTrip, Serialize, unexpected};
use qs_data::{Data, Reader, Result, Scalar, Shape, WriteResult, Writer};
use qs_tree::ParsedValue;
use std::alloc::Global;

impl Serialize for () {
    ghost datum = { λ _. d.unit };

    fn to_data(&self, _alloc: Global) -> Result<Data> {
        Ok(Data::Unit)
    }

    #[tactic(auto, unfolding(qs_spec::specs::Entry::entries_at))]
    fn write_to(&self, writer: &mut Writer) -> WriteResult {
        writer.unit()
    }
}

impl Deserialize for () {
    ghost table = { table_of (λ _. tt) (λ _. d.unit) s.Shape.unit unit_in refl (λ _ e h p. unit_back e h p) };

    fn shape(_alloc: Global) -> Result<Shape> {
        Ok(Shape::Unit)
    }

    fn from_data(alloc: Global, datum: Data) -> Result<()> {
        match datum {
            Data::Unit => Ok(()),
            _ => Err(unexpected(alloc, "unit")),
        }
    }

    fn from_node(reader: Reader, node: &ParsedValue<'_>) -> Result<()> {
        Self::from_data(reader.alloc, reader.unit(node)?)
    }
}

impl RoundTrip for () {
    ghost same_datum = { λ _. refl };
}

impl Serialize for bool {
    ghost datum = { d.boolean };

    fn to_data(&self, _alloc: Global) -> Result<Data> {
        Ok(Data::Bool(*self))
    }

    #[tactic(auto, unfolding(qs_spec::specs::Entry::entries_at))]
    fn write_to(&self, writer: &mut Writer) -> WriteResult {
        writer.scalar(Scalar::Bool(*self))
    }
}

impl Deserialize for bool {
    ghost table = { table_of (λ b. b) d.boolean s.Shape.boolean boolean_in refl boolean_back };

    fn shape(_alloc: Global) -> Result<Shape> {
        Ok(Shape::Bool)
    }

    fn from_data(alloc: Global, datum: Data) -> Result<bool> {
        match datum {
            Data::Bool(b) => Ok(b),
            _ => Err(unexpected(alloc, "a boolean")),
        }
    }

    fn from_node(reader: Reader, node: &ParsedValue<'_>) -> Result<bool> {
        Self::from_data(reader.alloc, reader.boolean(node)?)
    }
}

impl RoundTrip for bool {
    ghost same_datum = { λ _. refl };
}

impl Serialize for char {
    ghost datum = { λ c. fitting s.Shape.character (d.character c) };

    fn to_data(&self, _alloc: Global) -> Result<Data> {
        Ok(Data::Char(*self))
    }

    fn write_to(&self, writer: &mut Writer) -> WriteResult {
        writer.scalar(Scalar::Char(*self))
    }
}

impl Deserialize for char {
    ghost table = { table_of (λ c. c) d.character s.Shape.character character_in refl (character_back is_scalar) };

    fn shape(_alloc: Global) -> Result<Shape> {
        Ok(Shape::Char)
    }

    fn from_data(alloc: Global, datum: Data) -> Result<char> {
        match datum {
            Data::Char(c) => Ok(c),
            _ => Err(unexpected(alloc, "a character")),
        }
    }

    fn from_node(reader: Reader, node: &ParsedValue<'_>) -> Result<char> {
        Self::from_data(reader.alloc, reader.character(node)?)
    }
}

impl RoundTrip for char {
    ghost same_datum = { λ _. refl };
}

impl Serialize for String {
    ghost datum = { λ text. d.text (string_bytes text) };

    fn to_data(&self, alloc: Global) -> Result<Data> {
        Ok(Data::Text(String::from_str(alloc, self.as_str())?))
    }

    #[tactic(auto, unfolding(qs_spec::specs::Entry::entries_at))]
    fn write_to(&self, writer: &mut Writer) -> WriteResult {
        writer.scalar(Scalar::Bytes(self.as_bytes()))
    }
}

impl Deserialize for String {
    ghost table = { table_with (λ text. string_bytes text) (λ text. d.text (string_bytes text)) s.Shape.text text_in refl (λ _ text _. string_is_utf8 text) (λ _ text e _ p. text_back (string_bytes text) e p) };

    fn shape(_alloc: Global) -> Result<Shape> {
        Ok(Shape::Text)
    }

    #[inline(always)]
    fn from_data(alloc: Global, datum: Data) -> Result<String> {
        match datum {
            Data::Text(text) => Ok(text),
            _ => Err(unexpected(alloc, "a string")),
        }
    }

    #[inline(always)]
    fn from_node(reader: Reader, node: &ParsedValue<'_>) -> Result<String> {
        Self::from_data(reader.alloc, reader.text(node)?)
    }
}

impl RoundTrip for String {
    ghost same_datum = { λ _. refl };
}
