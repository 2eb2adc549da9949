//! Shapes: what is read from a querystring.

ghost use Rattle.std.specs.Prelude.{◌≡◌};
ghost use Rattle.qs_spec.specs.Shape.{is_option};
ghost use Rattle.qs_data.specs.shape.Views.{shape_of};

/// What is read from a querystring, and so what its text means.
///
/// ```
/// let ids = Shape::Seq(Box::new(alloc, Shape::U8)?); // a list of numbers of 8 bits
/// ```
#[cycle(shape)]
#[derive(Debug, PartialEq, Eq, Drop)]
pub enum Shape {
    /// No value: a key alone, or one with nothing after `=`.
    Unit,
    /// `true` or `false`; a key alone, or one with nothing after `=`, is true.
    Bool,
    /// A whole number of 8 bits.
    U8,
    /// A whole number of 16 bits.
    U16,
    /// A whole number of 32 bits.
    U32,
    /// A whole number of 64 bits.
    U64,
    /// A signed number of 8 bits.
    I8,
    /// A signed number of 16 bits.
    I16,
    /// A signed number of 32 bits.
    I32,
    /// A signed number of 64 bits.
    I64,
    /// A string of one character.
    Char,
    /// A string, which must be UTF-8.
    Text,
    /// A string of bytes.
    Bytes,
    /// A value that may be absent.
    Option(Box<Shape>),
    /// A list.
    Seq(Box<Shape>),
    /// The first items of a list, each of its own shape.
    Tuple(Vec<Shape>),
    /// Keys and values.
    Map(KeyShape, Box<Shape>),
    /// Fields, by their names or by their indices.
    Struct(Vec<Field>),
    /// Like [`Struct`](Shape::Struct), but a map's keys that no field has are rejected.
    StrictStruct(Vec<Field>),
    /// A value in a type of its own.
    Newtype(Box<Shape>),
    /// One of these variants, by its name.
    Enum(Vec<Variant>),
    /// Whatever is there.
    Any,
    /// Whatever is there; it is ignored.
    Ignored,
}

/// A field of a struct.
///
/// ```
/// let age = Field { name: String::from_str(alloc, "age")?, shape: Shape::U8, optional: false };
/// let person = Shape::Struct(vec![in alloc; age]?);
/// ```
#[cycle(shape)]
#[derive(Debug, PartialEq, Eq, Drop)]
pub struct Field {
    /// Its name, which is the text of its key.
    pub name: String,
    /// The shape of its value.
    pub shape: Shape,
    /// Whether it may be missing; it is then left out of the data.
    pub optional: bool,
}

/// A variant of an enum.
///
/// ```
/// let new = Variant { name: String::from_str(alloc, "New")?, kind: VariantKind::Unit };
/// let sort = Shape::Enum(vec![in alloc; new]?);
/// ```
#[cycle(shape)]
#[derive(Debug, PartialEq, Eq, Drop)]
pub struct Variant {
    /// Its name, which is the text of its key.
    pub name: String,
    /// What it holds.
    pub kind: VariantKind,
}

/// What a variant holds.
///
/// ```
/// let kind = VariantKind::Newtype(Box::new(alloc, Shape::U8)?); // reads v[By]=7
/// ```
#[cycle(shape)]
#[derive(Debug, PartialEq, Eq, Drop)]
pub enum VariantKind {
    /// Nothing.
    Unit,
    /// A value.
    Newtype(Box<Shape>),
    /// The first items of a list, each of its own shape.
    Tuple(Vec<Shape>),
    /// Fields, by their names or by their indices.
    Struct(Vec<Field>),
    /// Like [`Struct`](VariantKind::Struct), but a map's keys that no field has are rejected.
    StrictStruct(Vec<Field>),
}

impl Shape {
    /// Returns whether this is an option. A field of such a shape is `None` if its key is missing.
    ///
    /// ```
    /// let is_optional = Shape::Text.is_option(); // false
    /// ```
    pub fn is_option(&self) -> bool
        ensures { result ≡ is_option (shape_of self.now) }
    {
        match self {
            Shape::Option(_) => true,
            _ => false,
        }
    }
}

/// How the text of a map's key is read.
///
/// ```
/// let prices = Shape::Map(KeyShape::Text, Box::new(alloc, Shape::U32)?); // reads prices[tea]=250
/// ```
#[derive(Debug, PartialEq, Eq, Drop)]
pub enum KeyShape {
    /// `true` or `false`.
    Bool,
    /// A whole number of 8 bits.
    U8,
    /// A whole number of 16 bits.
    U16,
    /// A whole number of 32 bits.
    U32,
    /// A whole number of 64 bits.
    U64,
    /// A signed number of 8 bits.
    I8,
    /// A signed number of 16 bits.
    I16,
    /// A signed number of 32 bits.
    I32,
    /// A signed number of 64 bits.
    I64,
    /// A string of one character.
    Char,
    /// A string, which must be UTF-8.
    Text,
    /// One of these names.
    Variants(Vec<String>),
}
