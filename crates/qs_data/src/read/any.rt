//! Reading whatever is there.

ghost use Rattle.qs_spec.specs.internal.ReadFunction.{any_data};
ghost use Rattle.qs_tree.specs.tree.Views.{tree_of};
ghost use Rattle.qs_data.specs.data.Views.{data_of};
ghost use Rattle.qs_data.specs.read.TreeText.{is_text};
ghost use Rattle.qs_data.specs.read.internal.ReadError.{ReadGives};
ghost use Rattle.qs_data.specs.read.internal.Nesting.{frame_data, frame_is_text};

use crate::data::Data;
use crate::read::error::Result;
use crate::read::nested::{Partial, Visited, visit};
use qs_tree::ParsedValue;
use std::alloc::Global;
use std::mem;

/// Reads whatever is there: a text as a text, and an empty value as an empty text. A sequence is a list, and so is a map whose
/// keys are all integers; any other map keeps its keys as texts.
///
/// Iterative: it takes constant stack at any depth, and keeps the lists and maps around on the heap.
#[inline(always)]
pub(crate) fn read_any(alloc: Global, value: &ParsedValue<'_>) -> Result<Data>
    ensures { ReadGives data_of (is_text (tree_of value.now)) result (any_data (tree_of value.now)) }
{
    match visit(alloc, value)? {
        Visited::Leaf(data) => Ok(data),
        Visited::Inner(frame) => read_frame(alloc, frame),
    }
}

// Reads a list or a map. The lists and maps around the innermost one are on a stack.
fn read_frame(alloc: Global, outermost: Partial<'_, '_>) -> Result<Data>
    ensures { ReadGives data_of (frame_is_text outermost.entry) result (frame_data outermost.entry) }
{
    let mut stack = Vec::new(alloc);
    let mut frame = outermost;
    loop {
        if let Some(inner) = frame.advance(alloc)? {
            stack.push(mem::replace(&mut frame, inner))?;
            continue;
        }
        let data = frame.done();
        let Some(outer) = stack.pop() else {
            return Ok(data);
        };
        frame = outer;
        frame.add(data)?;
    }
}
