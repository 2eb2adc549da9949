//! One node of a tree: what a shape reads from it, and what is found under a name in it.

ghost use Rattle.std.specs.Prelude.{◌≡◌, IfErr, true};
ghost use Rattle.qs_spec.specs.Config.{are_rejected};
ghost use Rattle.qs_spec.specs.Node.{found};
ghost use Rattle.qs_spec.specs.Shape.{is_distinct};
ghost use Rattle.qs_tree.specs.tree.Views.{tree_of, entries_of_map};
ghost use Rattle.qs_data.specs.data.Views.{data_of};
ghost use Rattle.qs_data.specs.shape.Views.{shape_of};
ghost use Rattle.qs_data.specs.read.TreeText.{is_text};
ghost use Rattle.qs_data.specs.read.Reads.{reads};
ghost use Rattle.qs_data.specs.failure.Fails.{Fails, GivesOrFails};
ghost use Rattle.qs_data.specs.read.Gives.{Gives};
ghost use Rattle.qs_data.specs.read.Errors.{OnlyCustomUtf8OrOutOfMemory};
ghost use Rattle.qs_data.specs.read.Found.{IsFound};
ghost use Rattle.qs_data.specs.read.Parsed.{ReturnsData};

use crate::data::Data;
use crate::failure::Failure;
use crate::read::by_shape::{Reader, read, read_node};
use crate::read::key_test::test_keys;
use crate::read::keys::{Found, NodeEntries, find};
use crate::shape::Shape;
use qs_tree::{Config, ParsedMap, ParsedValue, Result};
use std::alloc::Global;

/// Reads one node of a tree by a shape, as [`Deserializer::read`](crate::Deserializer::read) does with the whole tree.
///
/// The data is what docs/QUERYSTRINGS.md gives for the shape and the node; of several variants with the same name, the first counts. If
/// it gives none, the error is [`Custom`](qs_tree::Error::Custom), or [`Utf8`](qs_tree::Error::Utf8) if a string that is read isn't
/// UTF-8. It allocates for what the data keeps and for an error, and takes time like that call.
///
/// ```
/// let age = read_value(alloc, Config::new(), &Shape::U8, &ParsedValue::Null); // an error: u8 is expected
/// ```
#[tactic(auto, using(crate::proofs::lemmas::read::Related::returns_data))]
pub fn read_value(
    alloc: Global,
    config: Config,
    shape: &Shape,
    node: &ParsedValue<'_>,
) -> Result<Data>
    ensures exact { Gives data_of (is_text (tree_of node.now)) result (reads (are_rejected config.duplicates) (shape_of shape.now) (tree_of node.now)) }
    ensures related { is_distinct (shape_of shape.now) ≡ true → ReturnsData (record { config = config; tree = tree_of node.now }) (shape_of shape.now) result }
    ensures errors { OnlyCustomUtf8OrOutOfMemory result }
{
    read(Reader::new(alloc, config), shape, node)
}

/// Reads one node of a tree by a shape, as [`read_value`] does. A failure says which part isn't read: it has the path to the part, what was
/// expected there and what was found.
///
/// The fault is that part's own: a text that its shape doesn't read, a key that its shape doesn't allow, a missing field or item. The
/// part is the first that reading comes to, in the order of [`Deserializer::read`](crate::Deserializer::read). It takes time like that
/// call, and after an error as much again at most for each map whose keys are to blame.
///
/// ```
/// if let Err(Failure::Unread(unread)) = read_with_path(alloc, Config::new(), &shape, node) {
///     println!(rt; "{}", unread.mismatch)?; // user[age]: expected u8, found the text "x"
/// }
/// ```
pub fn read_with_path(
    alloc: Global,
    config: Config,
    shape: &Shape,
    node: &ParsedValue<'_>,
) -> std::result::Result<Data, Failure>
    ensures exact { GivesOrFails data_of (is_text (tree_of node.now)) result (reads (are_rejected config.duplicates) (shape_of shape.now) (tree_of node.now)) }
    ensures fails { IfErr result (Fails (are_rejected config.duplicates) (shape_of shape.now) (tree_of node.now)) }
{
    read_node(Reader::new(alloc, config), shape, node)
}

/// Looks up the value under a name, as a field of a struct is looked up: under the string key, or under the integer key whose digits
/// are the name.
///
/// It doesn't allocate, and looks at each key once.
///
/// ```
/// let found = find_value(&map, "age"); // Found::Missing, Found::One(value) or Found::Several
/// ```
pub fn find_value<'t, 'qs>(map: &'t ParsedMap<'qs>, name: &str) -> Found<'t, 'qs>
    ensures { IsFound result (found name.now (entries_of_map map.now)) }
{
    let entries = NodeEntries::Map(map);
    let _numbers_fit = test_keys(entries);
    find(entries, name)
}
