//! Small shapes and data.

use crate::claims::made;
use serde_qs::{Data, Field, KeyShape, Shape, Variant, VariantKind};
use std::alloc::Global;
use std::process::Abort;

/// Makes shapes and data. Ends the test if an allocation fails.
#[derive(Drop)]
pub struct Build<'r, R: Abort> {
    pub rt: &'r R,
    pub alloc: Global,
}

impl<'r, R: Abort> Build<'r, R> {
    /// Returns a maker of shapes and data that allocates here.
    pub fn new(rt: &'r R, alloc: Global) -> Self {
        Build { rt, alloc }
    }

    // Returns the data in a box.
    fn boxed<T: Drop>(&self, value: T) -> Box<T> {
        made(self.rt, Box::new(self.alloc, value))
    }

    // Returns the items as a vector.
    fn vec<T: Drop, const N: usize>(&self, values: [T; N]) -> Vec<T> {
        made(self.rt, Vec::from_array(self.alloc, values))
    }

    // Returns the text as a string.
    fn name(&self, name: &str) -> String {
        made(self.rt, String::from_str(self.alloc, name))
    }

    /// Returns a member of a struct.
    pub fn member(&self, name: &str, value: Data) -> (String, Data) {
        (self.name(name), value)
    }

    /// Returns a required field.
    pub fn required(&self, name: &str, shape: Shape) -> Field {
        let name = self.name(name);
        Field {
            name,
            shape,
            optional: false,
        }
    }

    /// Returns an optional field.
    pub fn optional(&self, name: &str, shape: Shape) -> Field {
        let name = self.name(name);
        Field {
            name,
            shape,
            optional: true,
        }
    }

    /// Returns the shape of a struct with these fields.
    pub fn fields<const N: usize>(&self, fields: [Field; N]) -> Shape {
        Shape::Struct(self.vec(fields))
    }

    /// Returns the shape of a struct with this one required field.
    pub fn field(&self, name: &str, shape: Shape) -> Shape {
        self.fields([self.required(name, shape)])
    }

    /// Returns a variant of this kind.
    pub fn variant(&self, name: &str, kind: VariantKind) -> Variant {
        let name = self.name(name);
        Variant { name, kind }
    }

    /// Returns a text.
    pub fn text(&self, text: &str) -> Data {
        Data::Text(self.name(text))
    }

    /// Returns `Some` with this value.
    pub fn some(&self, value: Data) -> Data {
        Data::Some(self.boxed(value))
    }

    /// Returns a list.
    pub fn list<const N: usize>(&self, items: [Data; N]) -> Data {
        Data::Seq(self.vec(items))
    }

    /// Returns a list of fixed length.
    pub fn items<const N: usize>(&self, items: [Data; N]) -> Data {
        Data::Tuple(self.vec(items))
    }

    /// Returns a map with these pairs.
    pub fn pairs<const N: usize>(&self, pairs: [(Data, Data); N]) -> Data {
        Data::Map(self.vec(pairs))
    }

    /// Returns a struct of these members.
    pub fn record<const N: usize>(&self, members: [(String, Data); N]) -> Data {
        Data::Struct(self.vec(members))
    }

    /// Returns a struct of this one member.
    pub fn one(&self, name: &str, value: Data) -> Data {
        self.record([self.member(name, value)])
    }

    /// Returns a value in a type of its own.
    pub fn wrapped(&self, value: Data) -> Data {
        Data::Newtype(self.boxed(value))
    }

    /// Returns a variant that holds a value.
    pub fn holding(&self, name: &str, value: Data) -> Data {
        Data::NewtypeVariant(self.name(name), self.boxed(value))
    }

    /// Returns a variant that holds a list.
    pub fn holding_items<const N: usize>(&self, name: &str, items: [Data; N]) -> Data {
        Data::TupleVariant(self.name(name), self.vec(items))
    }

    /// Returns a variant that holds members.
    pub fn holding_record<const N: usize>(&self, name: &str, members: [(String, Data); N]) -> Data {
        Data::StructVariant(self.name(name), self.vec(members))
    }
}
