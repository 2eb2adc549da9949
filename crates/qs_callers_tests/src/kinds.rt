//! An enum with every kind of variant, and names in the style of other programs.

ghost use Rattle.qs_callers_tests.specs.declared.kinds.Message.TheVariants.{Unit as Empty, Newtype as One, Tuple as Two, Struct as Named};
ghost use Rattle.qs_callers_tests.specs.declared.kinds.TheConstants.{MESSAGE_NAMES, LOUD_NAMES, PERSON_NAMES};
ghost use Rattle.serde_qs.specs.declared.compound.variants.OneOf.TheVariants.{First, Later};
ghost use Rattle.serde_qs.specs.PartTables.{made_of};

use crate::claims::is_written_and_read;
use crate::round_trips::pair_comes_back;
use crate::values::{list, text};
use qs_callers::Pair;
use serde_qs::OneOf::{First, Later};
use serde_qs::{
    Compound, Enum, Last, Newtype, OneOf, Out, Parts, Result, Shape, Source, Struct, Tuple,
    WriteResult, fields,
};
use std::alloc::Global;

/// A message.
#[derive(Debug, PartialEq, Drop)]
enum Message {
    Unit,
    Newtype(String),
    Tuple(u32, bool),
    Struct { x: String, y: String },
}

type MessageParts = Enum<OneOf<(), OneOf<Newtype<String>, OneOf<Tuple<(u32, (bool, ()))>, Rest>>>>;

type Rest = Last<Struct<(String, (String, ()))>>;

const MESSAGE_NAMES: &[&str] = &["Unit", "Newtype", "Tuple", "Struct", "x", "y"];

impl Compound for Message {
    ghost table = { made_of ⟦<MessageParts as Parts>⟧.table MESSAGE_NAMES.now (elim [ Empty ↦ record { 0 = First tt } | One text ↦ record { 0 = Later (First (record { 0 = text })) } | Two count is_set ↦ record { 0 = Later (Later (First (record { 0 = (count, (is_set, tt)) }))) } | Named x y ↦ record { 0 = Later (Later (Later (record { 0 = record { 0 = (x, (y, tt)) } }))) } ]) _ };

    fn parts_shape(alloc: Global) -> Result<Shape> {
        MessageParts::shape(alloc, MESSAGE_NAMES)
    }

    fn read(source: Source) -> Result<Message> {
        let Enum(variant) = MessageParts::read(source, MESSAGE_NAMES)?;
        Ok(match variant {
            First(()) => Message::Unit,
            Later(First(Newtype(text))) => Message::Newtype(text),
            Later(Later(First(Tuple((count, (is_set, ())))))) => Message::Tuple(count, is_set),
            Later(Later(Later(Last(Struct(named))))) => {
                let fields!(x, y) = named;
                Message::Struct { x, y }
            }
        })
    }

    fn write_parts(&self, out: Out) -> WriteResult {
        match self {
            Message::Unit => out.unit_variant("Unit"),
            Message::Newtype(text) => out.newtype_variant("Newtype", text),
            Message::Tuple(count, is_set) => out.tuple_variant("Tuple", (count, (is_set, ()))),
            Message::Struct { x, y } => out.struct_variant("Struct", &["x", "y"], (x, (y, ()))),
        }
    }
}

/// Fields with names in capitals.
#[derive(Debug, PartialEq, Drop)]
struct Loud {
    one: u32,
    two: String,
    nested: Option<String>,
}

type LoudParts = Struct<(u32, (String, (Option<String>, ())))>;

const LOUD_NAMES: &[&str] = &["FIELD_ONE", "FIELD_TWO", "NESTED_FIELD"];

impl Compound for Loud {
    ghost table = { made_of ⟦<LoudParts as Parts>⟧.table LOUD_NAMES.now (λ loud. record { 0 = (loud.one, (loud.two, (loud.nested, tt))) }) _ };

    fn parts_shape(alloc: Global) -> Result<Shape> {
        LoudParts::shape(alloc, LOUD_NAMES)
    }

    fn read(source: Source) -> Result<Loud> {
        let Struct((one, (two, (nested, ())))) = LoudParts::read(source, LOUD_NAMES)?;
        Ok(Loud { one, two, nested })
    }

    fn write_parts(&self, out: Out) -> WriteResult {
        out.fields(LOUD_NAMES, (&self.one, (&self.two, (&self.nested, ()))))
    }
}

/// A field whose name has a space.
#[derive(Debug, PartialEq, Drop)]
struct Person {
    name: String,
}

type PersonParts = Struct<(String, ())>;

const PERSON_NAMES: &[&str] = &["full name"];

impl Compound for Person {
    ghost table = { made_of ⟦<PersonParts as Parts>⟧.table PERSON_NAMES.now (λ person. record { 0 = (person.name, tt) }) _ };

    fn parts_shape(alloc: Global) -> Result<Shape> {
        PersonParts::shape(alloc, PERSON_NAMES)
    }

    fn read(source: Source) -> Result<Person> {
        let Struct((name, ())) = PersonParts::read(source, PERSON_NAMES)?;
        Ok(Person { name })
    }

    fn write_parts(&self, out: Out) -> WriteResult {
        out.fields(PERSON_NAMES, (&self.name, ()))
    }
}

#[test]
fn every_kind_of_variant(rt: HostRuntime) {
    let alloc = rt.alloc();
    let named = Message::Struct {
        x: text(&rt, alloc, "3.14"),
        y: text(&rt, alloc, "test"),
    };
    let pair = Pair {
        a: Message::Tuple(42, true),
        b: named,
    };
    let wanted = "a[Tuple][0]=42&a[Tuple][1]=true&b[Struct][x]=3.14&b[Struct][y]=test";
    is_written_and_read(&rt, alloc, pair, wanted);
}

#[test]
fn variants_of_few_parts(rt: HostRuntime) {
    let alloc = rt.alloc();
    let newtype = Message::Newtype(text(&rt, alloc, "hello"));
    pair_comes_back(&rt, alloc, Message::Unit, newtype);
    let within = Message::Newtype(text(&rt, alloc, "in vec"));
    let messages = list(&rt, alloc, [Message::Unit, within]);
    pair_comes_back(&rt, alloc, messages, ());
}

#[test]
fn names_of_other_programs(rt: HostRuntime) {
    let alloc = rt.alloc();
    let loud = Loud {
        one: 42,
        two: text(&rt, alloc, "LOUD"),
        nested: Some(text(&rt, alloc, "NESTED")),
    };
    let wanted = "FIELD_ONE=42&FIELD_TWO=LOUD&NESTED_FIELD=NESTED";
    is_written_and_read(&rt, alloc, loud, wanted);
    let person = Person {
        name: text(&rt, alloc, "John Doe"),
    };
    is_written_and_read(&rt, alloc, person, "full+name=John+Doe");
}
