//! The format: its place in a tree, and how it moves.

ghost use Rattle.std.specs.Prelude.{◌≡◌, ◌<◌, ◌-◌, false, true, Some, slice_get, IfErr, IfOk, OnOk};
ghost use Rattle.qs_spec.specs.Config.{are_rejected};
ghost use Rattle.qs_tree.specs.tree.Views.{tree_of};
ghost use Rattle.qs_data.specs.declared.read.error.ReadError.TheVariants.{OutOfMemory};
ghost use Rattle.qs_data.specs.read.internal.ReadError.{ReadGives};
ghost use Rattle.qs_serde.specs.Nodes.{key_tree, node_tree, pairs_in};
ghost use Rattle.qs_serde.specs.Places.{IsAt, child_at, count_of, kind_of, part_view, scalar_at, scalar_of, tree_at, value_part};
ghost use Rattle.qs_serde.specs.Steps.{Begins, IsPlain, Leaves, Moves, Takes, field_of, next_node};

use super::Result;
use super::clues::Clues;
use super::frame::{Frame, FrameKind, Outer};
use super::node::{Node, Part, entry_at};
use qs_data::{Reader, Width};
use qs_tree::{Config, ParsedValue};
use serde::{Deserialize, Deserializer};
use std::alloc::Global;

/// A tree that serde's derives read step by step, as a [`Format`](serde::Format).
///
/// ```
/// let mut format = TreeFormat::new(alloc, Config::new(), &tree);
/// let query = Query::deserialize(alloc, &mut Deserializer::new(input, &mut format))?;
/// ```
///
/// The input is the one that the tree was parsed from. This type reports the first error that it meets. The calls of this crate then read
/// the tree again, to report the first in the order that [`from_str`](crate::from_str) describes.
#[derive(Drop)]
pub struct TreeFormat<'t, 'qs> {
    pub(crate) reader: Reader,
    // The innermost open list or map; the root if none is open.
    pub(crate) top: &'t ParsedValue<'qs>,
    // The current node in it, and which part of that node is read next.
    pub(crate) node: &'t ParsedValue<'qs>,
    pub(crate) part: Part,
    // The innermost open list or map, if one is open, and the ones around it, the innermost last.
    pub(crate) frame: Option<Frame>,
    pub(crate) around: Vec<Outer<'t, 'qs>>,
    // What the type requested of the current node.
    pub(crate) asked: Asked,
    // Whether this is for a variant of an untagged enum, which has to read the whole node.
    pub(crate) is_tried: bool,
    // How many items the list that ended last had.
    pub(crate) count: usize,
    pub(crate) search: Search,
    // Whether that was so before the last mark, if this came right after a look at the node's kind.
    pub(crate) was_tried: Option<bool>,
    // Whether a list had fewer items than a struct has fields.
    pub(crate) is_short: bool,
    pub(crate) clues: Clues,
}

/// What the type requested of the current node, for an error that is made later.
#[derive(Clone, Copy)]
pub(crate) enum Asked {
    /// No request is noted. An error is then the one for a unit.
    Unit,
    /// An unsigned number, from this part.
    Unsigned(Part),
    /// A signed number, from this part.
    Signed(Part),
    /// The variant that a text names.
    Variant,
    /// The variant that the key of an entry names.
    Entry,
    /// A variant or a field by a key, which names none. The error for a unit is then as for `Unit`.
    Key,
    /// A variant by the first key of a map that has no key.
    Enum,
    /// The value of the only key that was requested, such as the content of an enum.
    Content,
    /// The only key that was requested, which there isn't.
    Lacking,
    /// The kind of the node.
    Kind,
    /// Its kind, and then a mark.
    Marked,
    /// Each of several ways to read the node.
    Tried,
    /// An item of a list that ended.
    Ended,
    /// Not known.
    Nothing,
}

/// How a tree is read again after a read that failed, to find the error.
#[derive(Clone, Copy)]
pub(crate) struct Search {
    /// Whether fields are read in their own order, not in the order of the tree.
    pub(crate) in_order: bool,
    /// How many numbers were requested.
    pub(crate) numbers: usize,
    /// Which of them, counted from 1, is replaced by a number that `width` doesn't hold; 0 for none.
    pub(crate) probed: usize,
    pub(crate) width: Width,
    /// Whether the type decides which items a list may lack that is read as a struct.
    pub(crate) is_short: bool,
}

/// A place in a tree that a format can return to.
#[derive(Clone, Copy)]
pub struct Mark<'t, 'qs> {
    pub(crate) depth: usize,
    pub(crate) frame: Option<Frame>,
    pub(crate) top: &'t ParsedValue<'qs>,
    pub(crate) node: &'t ParsedValue<'qs>,
    pub(crate) part: Part,
    // Whether it is in a variant of an untagged enum, and whether it is the mark of one.
    pub(crate) is_tried: bool,
    pub(crate) is_try: bool,
}

impl Search {
    /// Returns the search of a read that doesn't look for an error.
    pub(crate) fn none() -> Search
        ensures { result.in_order ≡ false }
    {
        Search {
            in_order: false,
            numbers: 0,
            probed: 0,
            width: Width::Bits64,
            is_short: false,
        }
    }
}

impl<'t, 'qs> TreeFormat<'t, 'qs> {
    /// Returns a format at the root of a tree. It doesn't allocate.
    ///
    /// ```
    /// let mut format = TreeFormat::new(alloc, Config::new(), &tree);
    /// ```
    pub fn new(alloc: Global, config: Config, tree: &'t ParsedValue<'qs>) -> TreeFormat<'t, 'qs>
        ensures tree { tree_at result ≡ tree_of tree.now }
        ensures duplicates { result.reader.reject_duplicates ≡ are_rejected config.duplicates }
        ensures plain { IsPlain result }
        ensures place { IsAt result }
        ensures tried { result.is_tried ≡ false }
    {
        TreeFormat {
            reader: Reader::new(alloc, config),
            top: tree,
            node: tree,
            part: Part::Value,
            frame: None,
            around: Vec::new(alloc),
            asked: Asked::Unit,
            is_tried: false,
            count: 0,
            search: Search::none(),
            was_tried: None,
            is_short: false,
            clues: Clues::none(alloc),
        }
    }

    /// Returns the key of the current entry.
    #[inline(never)]
    pub(crate) fn key(&self) -> Node<'t, 'qs>
        ensures { node_tree result ≡ key_tree (slice_get (pairs_in (tree_of self.now.top.now)) (count_of self.now - 1)) }
    {
        let at = match self.frame {
            Some(frame) => frame.last_index(),
            None => 0,
        };
        match entry_at(self.top, at) {
            Some((key, _)) => key,
            None => Node::EmptyKey,
        }
    }

    /// Returns this part of the current node, as a scalar reads it.
    #[inline(always)]
    pub(crate) fn part(&self, part: Part) -> Node<'t, 'qs>
        ensures { node_tree result ≡ scalar_of part (part_view self.now part) }
    {
        match part {
            Part::Value | Part::Held => Node::Value(self.node),
            Part::NoValue => Node::NoValue,
            Part::Key => self.key(),
            Part::Whole => Node::whole(self.node),
            Part::Nothing => Node::Nothing,
        }
    }

    /// Returns the part of a node that is read first.
    #[inline(always)]
    pub(crate) fn value_part(&self) -> Part
        ensures { result ≡ value_part self.now.is_tried }
    {
        if self.is_tried {
            Part::Whole
        } else {
            Part::Value
        }
    }

    /// Takes what is next. After a key, its value is next.
    #[inline(always)]
    pub(crate) fn take(&mut self) -> Node<'t, 'qs>
        ensures node { node_tree result ≡ scalar_at self.old }
        ensures takes { Takes self.old self.new }
    {
        let node = self.part(self.part);
        if self.part == Part::Key {
            self.part = self.value_part();
        }
        node
    }

    /// Returns the node that is next, or an error if a key is next.
    #[tactic(auto, using(crate::proofs::Errors::rejects_custom))]
    pub(crate) fn next_node(&self) -> Result<&'t ParsedValue<'qs>>
        ensures node { ReadGives (λ v. tree_of v.now) true result (next_node self.now) }
        ensures same { IfOk result (λ v. v.now ≡ self.now.node.now) }
    {
        match self.part {
            Part::Value | Part::Held | Part::NoValue | Part::Whole => Ok(self.node),
            Part::Key | Part::Nothing => Err(self.no_value()),
        }
    }

    /// Begins the current node as a list or a map.
    pub(crate) fn open(&mut self, kind: FrameKind) -> Result<()>
        ensures begins { OnOk result (Begins self.old kind self.new) }
        ensures errors { IfErr result (λ e. e ≡ OutOfMemory) }
    {
        let around = self.frame;
        let top = self.top;
        self.frame = Some(Frame::new(kind));
        self.top = self.node;
        match around {
            Some(frame) => Ok(self.around.push(Outer { frame, top })?),
            None => Ok(()),
        }
    }

    /// Leaves the innermost list or map, which is then the current node again.
    pub(crate) fn close(&mut self)
        ensures leaves { Leaves self.old self.new }
        ensures tried { self.new.is_tried ≡ self.old.is_tried }
    {
        self.node = self.top;
        self.asked = Asked::Unit;
        match self.around.pop() {
            Some(outer) => self.resume(outer),
            None => self.frame = None,
        }
    }

    // Goes on in the list or map around the one that was left.
    #[inline(always)]
    fn resume(&mut self, outer: Outer<'t, 'qs>)
        ensures { self.new ≡ record self.old { frame = Some outer.entry.frame; top = outer.entry.top } }
    {
        self.frame = Some(outer.frame);
        self.top = outer.top;
    }

    /// Goes to this item or value of the innermost list or map, which is at the frame's index.
    #[inline(always)]
    pub(crate) fn advance(&mut self, frame: Frame, value: &'t ParsedValue<'qs>)
        ensures moves { kind_of self.old ≡ Some frame.kind → frame.next < 18446744073709551615 → child_at (tree_of self.old.top.now) frame.next ≡ tree_of value.now → Moves frame.next self.old self.new }
        ensures node { self.new.node.now ≡ value.now }
        ensures field { field_of self.new ≡ frame.field }
        ensures kept { self.new ≡ record self.old { node = self.new.node; frame = self.new.frame; asked = self.new.asked } }
    {
        self.frame = Some(frame.advanced());
        self.node = value;
        self.asked = Asked::Unit;
    }
}

/// Reads a value from what is next.
pub(crate) fn read_tree<'de, T: Deserialize<'de>>(
    alloc: Global,
    input: &'de [u8],
    format: &mut TreeFormat<'_, '_>,
) -> Result<T> {
    T::deserialize(alloc, &mut Deserializer::new(input, format))
}
