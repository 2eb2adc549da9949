//! Reading a node step by step, for types that read themselves: its parts, and the errors.

ghost use Rattle.std.specs.Prelude.{◌≡◌, IfOk, None, true, false, option_and_then, option_map};
ghost use Rattle.std.specs.Str.{is_utf8};
ghost use Rattle.qs_spec.specs.Config.{are_rejected};
ghost use Rattle.qs_spec.specs.Node.{items};
ghost use Rattle.qs_spec.specs.Shape as s;
ghost use Rattle.qs_tree.specs.tree.Views.{tree_of};
ghost use Rattle.qs_data.specs.data.Views.{data_of};
ghost use Rattle.qs_data.specs.shape.Views.{shape_of};
ghost use Rattle.qs_data.specs.shape.Widths.{bits_of};
ghost use Rattle.qs_data.specs.read.TreeText.{entries_are_text, is_text};
ghost use Rattle.qs_data.specs.read.Entries.{node_entries};
ghost use Rattle.qs_data.specs.read.Keys.{entries_view};
ghost use Rattle.qs_data.specs.read.Reads.{reads};
ghost use Rattle.qs_data.specs.read.Gives.{Gives, Rejects};
ghost use Rattle.qs_data.specs.read.Held.{held_is_text};
ghost use Rattle.qs_data.specs.read.Errors.{IsCustomOrOutOfMemory};
ghost use Rattle.qs_data.specs.read.Items.{are_text, items_view};
ghost use Rattle.qs_data.specs.read.internal.ReadError.{ReadRejects};

use crate::data::Data;
use crate::read::by_shape::{Reader, read};
use crate::read::error::ReadError;
use crate::read::items::{NodeItems, items_of};
use crate::read::keys::NodeEntries;
use crate::read::message::{Expected, Message, Unexpected};
use crate::read::scalar::{
    as_text, read_bool, read_char, read_signed, read_text, read_unit, read_unsigned,
};
use crate::shape::{Shape, Width};
use qs_tree::{Config, DuplicateKeyBehavior, Error, ParsedValue, Result};
use std::alloc::Global;

#[tactic(auto, unfolding(qs_spec::specs::internal::ReadFunction::reads))]
impl Reader {
    /// Returns a reader for a configuration. It doesn't allocate.
    ///
    /// ```
    /// let reader = Reader::new(alloc, Config::new());
    /// ```
    pub fn new(alloc: Global, config: Config) -> Reader
        ensures { result.reject_duplicates ≡ are_rejected config.duplicates }
    {
        let reject_duplicates = config.get_duplicates() == DuplicateKeyBehavior::Error;
        Reader {
            alloc,
            reject_duplicates,
        }
    }

    /// Reads a node by a shape, like [`read_value`](crate::read_value), with the same errors.
    ///
    /// ```
    /// let datum = reader.read(&shape, node)?;
    /// ```
    pub fn read(self, shape: &Shape, node: &ParsedValue<'_>) -> Result<Data>
        ensures { Gives data_of (is_text (tree_of node.now)) result (reads self.reject_duplicates (shape_of shape.now) (tree_of node.now)) }
    {
        read(self, shape, node)
    }

    /// Reads the unit, as its shape does. It allocates only for an error.
    ///
    /// ```
    /// let unit = reader.unit(node)?; // Data::Unit
    /// ```
    #[inline(always)]
    pub fn unit(self, node: &ParsedValue<'_>) -> Result<Data>
        ensures { Gives data_of (is_text (tree_of node.now)) result (reads self.reject_duplicates s.Shape.unit (tree_of node.now)) }
    {
        Ok(read_unit(self.alloc, node)?)
    }

    /// Reads a boolean, as its shape does. It allocates only for an error.
    ///
    /// ```
    /// let flag = reader.boolean(node)?; // Data::Bool(true)
    /// ```
    #[inline(always)]
    pub fn boolean(self, node: &ParsedValue<'_>) -> Result<Data>
        ensures { Gives data_of (is_text (tree_of node.now)) result (reads self.reject_duplicates s.Shape.boolean (tree_of node.now)) }
    {
        Ok(read_bool(self, node)?)
    }

    /// Reads an unsigned number of this width, as its shape does. It allocates only for an error.
    ///
    /// ```
    /// let age = reader.unsigned(Width::Bits8, node)?; // Data::Unsigned(24)
    /// ```
    #[inline(always)]
    pub fn unsigned(self, width: Width, node: &ParsedValue<'_>) -> Result<Data>
        ensures { Gives data_of (is_text (tree_of node.now)) result (reads self.reject_duplicates (s.Shape.unsigned (bits_of width)) (tree_of node.now)) }
    {
        Ok(read_unsigned(self, width, node)?)
    }

    /// Reads a signed number of this width, as its shape does. It allocates only for an error.
    ///
    /// ```
    /// let offset = reader.signed(Width::Bits16, node)?; // Data::Signed(-7)
    /// ```
    #[inline(always)]
    pub fn signed(self, width: Width, node: &ParsedValue<'_>) -> Result<Data>
        ensures { Gives data_of (is_text (tree_of node.now)) result (reads self.reject_duplicates (s.Shape.signed (bits_of width)) (tree_of node.now)) }
    {
        Ok(read_signed(self, width, node)?)
    }

    /// Reads a character, as its shape does. It allocates only for an error.
    ///
    /// ```
    /// let initial = reader.character(node)?; // Data::Char('A')
    /// ```
    #[inline(always)]
    pub fn character(self, node: &ParsedValue<'_>) -> Result<Data>
        ensures { Gives data_of (is_text (tree_of node.now)) result (reads self.reject_duplicates s.Shape.character (tree_of node.now)) }
    {
        Ok(read_char(self.alloc, node)?)
    }

    /// Reads a string, as its shape does. It allocates the string.
    ///
    /// ```
    /// let name = reader.text(node)?; // Data::Text: Alice
    /// ```
    #[inline(always)]
    pub fn text(self, node: &ParsedValue<'_>) -> Result<Data>
        ensures { Gives data_of (is_text (tree_of node.now)) result (reads self.reject_duplicates s.Shape.text (tree_of node.now)) }
    {
        Ok(read_text(self, node)?)
    }

    /// Returns the items of a node:
    /// - no value or an empty value has none;
    /// - a string is the only item;
    /// - a sequence has its elements;
    /// - a map whose keys are all integers has its values.
    ///
    /// For any other map, and for a node that holds nothing at all, the error is [`Custom`](qs_tree::Error::Custom). It allocates only for
    /// an error. In a map it looks at each key up to the first that isn't an integer; otherwise it takes constant time.
    ///
    /// ```
    /// let items = reader.items(node)?;
    /// ```
    pub fn items<'t, 'qs>(self, node: &'t ParsedValue<'qs>) -> Result<NodeItems<'t, 'qs>>
        ensures exact { Gives items_view true result (items (tree_of node.now)) }
        ensures text { IfOk result (λ xs. are_text (items_view xs) ≡ false → is_text (tree_of node.now) ≡ false) }
    {
        self.items_for(Expected::Sequence, node)
    }

    /// Returns the items of a node for a tuple of this size, like [`items`](Reader::items), with the same errors, allocations and time.
    /// There may be more or fewer items; only the error's message names the size.
    ///
    /// ```
    /// let items = reader.tuple(2, node)?;
    /// ```
    pub fn tuple<'t, 'qs>(
        self,
        size: usize,
        node: &'t ParsedValue<'qs>,
    ) -> Result<NodeItems<'t, 'qs>>
        ensures exact { Gives items_view true result (items (tree_of node.now)) }
        ensures text { IfOk result (λ xs. are_text (items_view xs) ≡ false → is_text (tree_of node.now) ≡ false) }
    {
        self.items_for(Expected::Tuple(size), node)
    }

    /// Returns the entries of a node:
    /// - a map has its entries;
    /// - no value or an empty value has none;
    /// - a string is one entry, under the empty key.
    ///
    /// For a sequence, and for a node that holds nothing at all, the error is [`Custom`](qs_tree::Error::Custom). It allocates only for an
    /// error, and takes constant time.
    ///
    /// ```
    /// let entries = reader.entries(node)?;
    /// ```
    #[tactic(auto, using(crate::proofs::lemmas::read::Variants::under_bad))]
    pub fn entries<'t, 'qs>(self, node: &'t ParsedValue<'qs>) -> Result<NodeEntries<'t, 'qs>>
        ensures exact { Gives entries_view true result (node_entries (tree_of node.now)) }
        ensures text { IfOk result (λ es. entries_are_text (entries_view es) ≡ false → is_text (tree_of node.now) ≡ false) }
    {
        match node {
            ParsedValue::NoValue | ParsedValue::Null => Ok(NodeEntries::Empty),
            ParsedValue::String(_) => Ok(NodeEntries::Leaf(node)),
            ParsedValue::Map(map) => Ok(NodeEntries::Map(map)),
            ParsedValue::Sequence(_) | ParsedValue::Uninitialized => {
                let error = Message::mismatch(self.alloc, node, Expected::Map);
                Err(Error::from(error))
            }
        }
    }

    /// Returns the error of a node that holds nothing at all: [`Custom`](qs_tree::Error::Custom), for which it allocates.
    ///
    /// ```
    /// ParsedValue::Uninitialized => Err(reader.nothing()),
    /// ```
    pub fn nothing(self) -> Error
        ensures { IsCustomOrOutOfMemory result }
    {
        Error::from(Message::Uninitialized.error(self.alloc))
    }

    /// Returns the error of a field whose key is missing: [`Custom`](qs_tree::Error::Custom), for which it allocates.
    ///
    /// ```
    /// Found::Missing => Err(reader.missing_field("age")), // missing field `age`
    /// ```
    pub fn missing_field(self, name: &str) -> Error
        ensures { IsCustomOrOutOfMemory result }
    {
        Error::from(Message::MissingField(name).error(self.alloc))
    }

    /// Returns the error of a field with two keys: [`Custom`](qs_tree::Error::Custom), for which it allocates.
    ///
    /// ```
    /// Found::Several => Err(reader.duplicate_field("1")), // duplicate field `1`
    /// ```
    pub fn duplicate_field(self, name: &str) -> Error
        ensures { IsCustomOrOutOfMemory result }
    {
        Error::from(Message::DuplicateField(name).error(self.alloc))
    }

    /// Returns the error of a list with too few items, only `count` of them: [`Custom`](qs_tree::Error::Custom), for which it allocates.
    ///
    /// ```
    /// None => Err(reader.missing_item(1)), // invalid length 1
    /// ```
    pub fn missing_item(self, count: usize) -> Error
        ensures { IsCustomOrOutOfMemory result }
    {
        Error::from(Message::InvalidLength(count).error(self.alloc))
    }

    /// Returns the node that a newtype variant holds. If only a string names the variant, it holds none, and the error is
    /// [`Custom`](qs_tree::Error::Custom), for which it allocates.
    ///
    /// ```
    /// let node = reader.newtype_variant(held)?;
    /// ```
    pub fn newtype_variant<'t, 'qs>(
        self,
        held: Option<&'t ParsedValue<'qs>>,
    ) -> Result<&'t ParsedValue<'qs>>
        ensures { Gives (λ v. tree_of v.now) true result (option_map (λ v. tree_of v.now) held.entry) }
    {
        match held {
            Some(node) => Ok(node),
            None => Err(self.no_unit_variant(Expected::NewtypeVariant)),
        }
    }

    /// Returns the items that a tuple variant holds, like [`items`](Reader::items). If only a string names the variant, it holds none, and
    /// the error is [`Custom`](qs_tree::Error::Custom), for which it allocates.
    ///
    /// ```
    /// let items = reader.tuple_variant(held)?;
    /// ```
    pub fn tuple_variant<'t, 'qs>(
        self,
        held: Option<&'t ParsedValue<'qs>>,
    ) -> Result<NodeItems<'t, 'qs>>
        ensures exact { Gives items_view true result (option_and_then items (option_map (λ v. tree_of v.now) held.entry)) }
        ensures text { IfOk result (λ xs. are_text (items_view xs) ≡ false → held_is_text (option_map (λ v. tree_of v.now) held.entry) ≡ false) }
    {
        match held {
            Some(node) => self.items_for(Expected::TupleVariant, node),
            None => Err(self.no_unit_variant(Expected::TupleVariant)),
        }
    }

    /// Returns the node that a struct variant holds. If only a string names the variant, it holds none, and the error is
    /// [`Custom`](qs_tree::Error::Custom), for which it allocates.
    ///
    /// ```
    /// let node = reader.struct_variant(held)?;
    /// ```
    pub fn struct_variant<'t, 'qs>(
        self,
        held: Option<&'t ParsedValue<'qs>>,
    ) -> Result<&'t ParsedValue<'qs>>
        ensures { Gives (λ v. tree_of v.now) true result (option_map (λ v. tree_of v.now) held.entry) }
    {
        match held {
            Some(node) => Ok(node),
            None => Err(self.no_unit_variant(Expected::StructVariant)),
        }
    }

    /// Returns the error of a node that names no variant: [`Custom`](qs_tree::Error::Custom), for which it allocates.
    ///
    /// ```
    /// ParsedValue::Sequence(_) => Err(reader.not_an_enum(node)),
    /// ```
    pub fn not_an_enum(self, node: &ParsedValue<'_>) -> Error
        ensures { IsCustomOrOutOfMemory result }
    {
        Error::from(Message::mismatch(self.alloc, node, Expected::Enum))
    }

    /// Returns the error of a name that no variant has: [`Custom`](qs_tree::Error::Custom), or [`Utf8`](qs_tree::Error::Utf8) if the name
    /// isn't UTF-8. It allocates.
    ///
    /// ```
    /// _ => Err(reader.unknown_variant(b"Price")), // unknown variant `Price`
    /// ```
    pub fn unknown_variant(self, name: &[u8]) -> Error
        ensures { Rejects {Y = Unit {0}} (is_utf8 name.now) result None }
    {
        Error::from(variant_error(self.alloc, name))
    }

    // Returns the items of a node. An error says what was expected.
    #[tactic(auto, using(crate::proofs::lemmas::read::Items::items_bad))]
    fn items_for<'t, 'qs>(
        self,
        expected: Expected,
        node: &'t ParsedValue<'qs>,
    ) -> Result<NodeItems<'t, 'qs>>
        ensures exact { Gives items_view true result (items (tree_of node.now)) }
        ensures text { IfOk result (λ xs. are_text (items_view xs) ≡ false → is_text (tree_of node.now) ≡ false) }
    {
        Ok(items_of(self.alloc, node, expected)?)
    }

    // Returns the error of a variant that must hold something, but is named by a text alone.
    fn no_unit_variant(self, expected: Expected) -> Error
        ensures { IsCustomOrOutOfMemory result }
    {
        let found = Unexpected::UnitVariant;
        Error::from(Message::InvalidType { found, expected }.error(self.alloc))
    }

    /// Returns the error of a node that holds no struct: [`Custom`](qs_tree::Error::Custom), or [`Utf8`](qs_tree::Error::Utf8) if the node
    /// is a string that isn't UTF-8. It allocates.
    ///
    /// ```
    /// ParsedValue::String(_) => Err(reader.not_a_struct(node)),
    /// ```
    pub fn not_a_struct(self, node: &ParsedValue<'_>) -> Error
        ensures { Rejects {Y = Unit {0}} (is_text (tree_of node.now)) result None }
    {
        Error::from(struct_error(self.alloc, node))
    }
}

/// Returns the error of a node that holds no struct. For a text that isn't UTF-8, the error says so.
pub(crate) fn struct_error(alloc: Global, node: &ParsedValue<'_>) -> ReadError
    ensures { ReadRejects {Y = Unit {0}} (is_text (tree_of node.now)) result None }
{
    if let ParsedValue::String(text) = node {
        if let Err(error) = as_text(alloc, text.as_slice()) {
            return error;
        }
    }
    Message::mismatch(alloc, node, Expected::Struct)
}

// Returns the error of a name that no variant has. If the name isn't UTF-8, the error says so.
fn variant_error(alloc: Global, name: &[u8]) -> ReadError
    ensures { ReadRejects {Y = Unit {0}} (is_utf8 name.now) result None }
{
    match as_text(alloc, name) {
        Ok(name) => Message::UnknownVariant(name).error(alloc),
        Err(error) => error,
    }
}
