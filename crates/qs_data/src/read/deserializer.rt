//! The deserializer: a parsed querystring, to be read by a shape.

ghost use Rattle.std.specs.Prelude.{◌≡◌, ◌≢◌, ◌+◌, ◌≤◌, ◌⊎◌, ℕ, List, [], true, length, IfOk, IsOk};
ghost use Rattle.qs_spec.specs.Config.{default};
ghost use Rattle.qs_spec.specs.Holds.{IsSound, leaf_count, nesting};
ghost use Rattle.qs_spec.specs.Input.{HasPairs, IsReordered};
ghost use Rattle.qs_spec.specs.Escapes.{escapes};
ghost use Rattle.qs_spec.specs.Order.{AreEquivalent, ignoring_escapes};
ghost use Rattle.qs_spec.specs.Shape.{is_distinct};
ghost use Rattle.qs_spec.specs.Tree.{Tree, IsTree, HasNoTree};
ghost use Rattle.qs_tree.specs.Error.{IsParse, IfParse, IsOutOfMemory, OnlyOutOfMemory, OnlyParseOrOutOfMemory};
ghost use Rattle.qs_tree.specs.Parsing.{AllocatesNothing};
ghost use Rattle.qs_data.specs.shape.Views.{shape_of};
ghost use Rattle.qs_data.specs.read.Errors.{OnlyCustomUtf8OrOutOfMemory};
ghost use Rattle.qs_data.specs.read.Parsed.{allocates_nothing};
ghost use Rattle.qs_data.specs.read.Parsed.{ReturnsData, AllocatesOnlyForErrors, owned_by, parsed_of};
ghost use Rattle.qs_data.specs.read.ReadBack.{ReadsBack};

use crate::data::Data;
use crate::read::by_shape::{Reader, read};
use crate::shape::Shape;
use qs_tree::{Config, ParsedValue, Result, parse};
use std::alloc::Global;

/// A parsed querystring, to be read by a [`Shape`].
///
/// ```
/// let deserializer = Deserializer::with_config(alloc, Config::new(), b"age=24&name=Alice")?;
/// let person = deserializer.read(alloc, &shape)?;
/// ```
#[derive(Debug, Drop)]
pub struct Deserializer<'qs> {
    config: Config,
    tree: ParsedValue<'qs>,
}

impl<'qs> Deserializer<'qs> {
    /// Returns the querystring, parsed with the default configuration.
    ///
    /// The errors, the allocations and the time are the same as for [`with_config`](Deserializer::with_config).
    ///
    /// ```
    /// let deserializer = Deserializer::new(alloc, b"age=24&name=Alice")?;
    /// ```
    pub fn new(alloc: Global, input: &'qs [u8]) -> Result<Deserializer<'qs>>
        ensures config { IfOk result (λ d. (parsed_of d).config ≡ default) }
        ensures tree { IfOk result (λ d. IsTree default.is_form default.max_depth input.now (parsed_of d).tree) }
        ensures no_tree { IsParse result → HasNoTree default.is_form default.max_depth input.now }
        ensures position { IfParse result (λ position. position ≤ length input.now + 1) }
        ensures no_allocation { AllocatesNothing input.now → IsOk result }
        ensures errors { OnlyParseOrOutOfMemory result }
    {
        Deserializer::with_config(alloc, Config::new(), input)
    }

    /// Returns the querystring, parsed.
    ///
    /// It is rejected, with [`Parse`](qs_tree::Error::Parse) and the position of the first error, exactly if it has no tree. The only other
    /// error is [`OutOfMemory`](qs_tree::Error::OutOfMemory), if an allocation failed. It allocates like [`parse`](qs_tree::parse): strings
    /// and keys that hold neither `+` nor `%` are borrowed from the input. The time grows with the input's length and the depth of its
    /// keys.
    ///
    /// The clauses about the tree are the same as for [`parse`](qs_tree::parse). If there is a pair, an input with the same pairs in
    /// another order has the same tree, except for what is borrowed, or is rejected too (`equivalent`), provided that pairs with
    /// overlapping paths keep their order. Steps aren't counted: [`parse_with`](qs_tree::parse_with) counts them.
    ///
    /// ```
    /// let config = Config::new().use_form_encoding(true);
    /// let deserializer = Deserializer::with_config(alloc, config, b"user%5Bname%5D=Alice")?;
    /// ```
    pub fn with_config(alloc: Global, config: Config, input: &'qs [u8]) -> Result<Deserializer<'qs>>
        ensures config { IfOk result (λ d. (parsed_of d).config ≡ config) }
        ensures tree { IfOk result (λ d. IsTree config.is_form config.max_depth input.now (parsed_of d).tree) }
        ensures no_tree { IsParse result → HasNoTree config.is_form config.max_depth input.now }
        ensures accepted { (t : Tree) → IsTree config.is_form config.max_depth input.now t → OnlyOutOfMemory result }
        ensures rejected { HasNoTree config.is_form config.max_depth input.now → IsParse result ⊎ IsOutOfMemory result }
        ensures position { IfParse result (λ position. position ≤ length input.now + 1) }
        ensures no_allocation { AllocatesNothing input.now → IsOk result }
        ensures errors { OnlyParseOrOutOfMemory result }
        ensures borrowed { (t : Tree) → IsTree config.is_form config.max_depth input.now t → IfOk result (λ d. owned_by d ≡ escapes t) }
        ensures leaves { input.now ≢ [] → IfOk result (λ d. HasPairs config.is_form config.max_depth input.now (leaf_count (parsed_of d).tree)) }
        ensures nesting { IfOk result (λ d. nesting (parsed_of d).tree ≤ config.max_depth + 2) }
        ensures sound { IfOk result (λ d. IsSound (parsed_of d).tree) }
        ensures equivalent { (other : List ℕ) → IsReordered config.is_form config.max_depth input.now other → AreEquivalent config.is_form config.max_depth input.now other }
        ensures reordered { (other : List ℕ) → IsReordered config.is_form config.max_depth input.now other
            → IfOk result (λ d. (t : Tree) × IsTree config.is_form config.max_depth other t × (ignoring_escapes t ≡ ignoring_escapes (parsed_of d).tree)) }
    {
        let tree = parse(alloc, input, config)?;
        Ok(Deserializer { config, tree })
    }

    /// Reads the querystring by a shape whose names differ.
    ///
    /// The data is what docs/QUERYSTRINGS.md gives for the shape and the tree. If it gives none, the error is
    /// [`Custom`](qs_tree::Error::Custom) with the first mismatch, or [`Utf8`](qs_tree::Error::Utf8) if a string that is read isn't UTF-8.
    /// If an allocation failed, it is [`OutOfMemory`](qs_tree::Error::OutOfMemory). Fields are read in the shape's order; then the other
    /// keys are looked at.
    ///
    /// The items of a list are read in order, and the pairs of a map in the order of its keys, each key before its value. The error of a
    /// key that holds `[` has a hint to use form encoding.
    ///
    /// If the querystring was written from [plain](Data::is_plain) data that [fits](Shape::fits) the shape, under the same configuration,
    /// that data is read back. In the indexed format the entries may be in any order. In each format for which
    /// [`is_listed`](Data::is_listed) holds, they may be in any order that keeps entries with the same path in order. A map has its pairs
    /// in the order of its keys.
    ///
    /// Memory is allocated for what the data keeps, for a struct with capacity for each field of its shape, and for an error. A
    /// unit, a boolean, a number or a character is read without an allocation. The time grows with the tree and the data: a field is found
    /// by at most two look-ups.
    ///
    /// ```
    /// let numbers = Shape::Seq(Box::new(alloc, Shape::U8)?);
    /// let datum = Deserializer::new(alloc, b"0=7&1=8")?.read(alloc, &numbers)?; // the list of 7 and 8
    /// ```
    #[tactic(auto, using(crate::proofs::lemmas::read::Related::returns_data, crate::proofs::lemmas::read::Related::allocates_only_for_errors))]
    pub fn read(self, alloc: Global, shape: &Shape) -> Result<Data>
        requires { is_distinct (shape_of shape.now) ≡ true }
        ensures exact { ReturnsData (parsed_of self.entry) (shape_of shape.now) result }
        ensures back { ReadsBack (parsed_of self.entry) (shape_of shape.now) result }
        ensures no_allocation { allocates_nothing (shape_of shape.now) ≡ true → AllocatesOnlyForErrors (parsed_of self.entry) (shape_of shape.now) result }
        ensures errors { OnlyCustomUtf8OrOutOfMemory result }
    {
        read(Reader::new(alloc, self.config), shape, &self.tree)
    }
}
