//! What a list in one text is made of.

ghost use Rattle.std.specs.Prelude.{◌≡◌, ◌++◌, ℕ, Bool, true, List, Option, Some, OnOk, OnErr, string_bytes};
ghost use Rattle.qs_spec.specs.Entry.{boolean_text};
ghost use Rattle.qs_tree.specs.Error.{OnlyOutOfMemory};
ghost use Rattle.qs_data.specs.read.Errors.{IsCustomOrOutOfMemory};
ghost use Rattle.serde_qs.specs.Items.{boolean_item};
ghost use Rattle.serde_qs.specs.Typed.{GivesValue};

use qs_data::{Error, Result};
use std::alloc::Global;

/// An item of a list in one text: a number, a boolean or a string, or a type of your own.
///
/// ```
/// let mut out = String::new(alloc);
/// 7u8.print(&mut out)?; // 7
/// let item = <u8 as Item>::parse(alloc, "7")?;
/// ```
pub trait Item: Sized {
    // What an item holds. A text is parsed as at most one.
    ghost Value: { Type 0 };

    ghost value: { Self → Value };

    // The text of an item, a function of the item alone.
    ghost printed: { Self → List ℕ };

    // What the item holds that a text is parsed as, if it is one.
    ghost meaning: { List ℕ → Option Value };

    // Whether a number is in the range of its type, as every number of a program is.
    ghost in_range: { Self → Bool } = { λ _. true };

    /// Appends the text of this item. The one error is [`OutOfMemory`](Error::OutOfMemory), and then `out` is unchanged.
    ///
    /// It is the text of the same value in a querystring, before it is escaped. It allocates if `out` lacks the capacity, and the time
    /// grows with the text's length.
    ///
    /// ```
    /// true.print(&mut out)?; // true
    /// ```
    fn print(&self, out: &mut String) -> Result<()>
        ensures ok { OnOk result (string_bytes out.new ≡ string_bytes out.old ++ printed self.now) }
        ensures err { OnErr result (string_bytes out.new ≡ string_bytes out.old) }
        ensures errors { OnlyOutOfMemory result }
        ensures valid { in_range self.now ≡ true };

    /// Returns the item that a text is parsed as.
    ///
    /// If it isn't an item, the error is [`Custom`](Error::Custom); if an allocation failed, [`OutOfMemory`](Error::OutOfMemory). There is
    /// no other error. It allocates for a string, and for the message of an error, and the time grows with the length of the text.
    ///
    /// ```
    /// let item = <bool as Item>::parse(alloc, "true")?; // true; of "x" the error is: invalid item `x`
    /// ```
    fn parse(alloc: Global, text: &str) -> Result<Self>
        ensures { GivesValue value result (meaning text.now) };
}

/// Returns the error for a text that isn't an item.
pub(crate) fn invalid(alloc: Global, text: &str) -> Error
    ensures { IsCustomOrOutOfMemory result }
{
    Error::custom(alloc, format_args!("invalid item `{text}`"), &())
}

/// Appends a text.
pub(crate) fn append(text: &str, out: &mut String) -> Result<()>
    ensures ok { OnOk result (string_bytes out.new ≡ string_bytes out.old ++ text.now) }
    ensures err { OnErr result (string_bytes out.new ≡ string_bytes out.old) }
    ensures errors { OnlyOutOfMemory result }
{
    out.push_str(text)?;
    Ok(())
}

impl Item for bool {
    ghost Value = { Bool };

    ghost value = { λ b. b };

    ghost printed = { boolean_text };

    ghost meaning = { boolean_item };

    fn print(&self, out: &mut String) -> Result<()> {
        append(if *self { "true" } else { "false" }, out)
    }

    fn parse(alloc: Global, text: &str) -> Result<bool> {
        match text.parse::<bool>() {
            Ok(value) => Ok(value),
            Err(_) => Err(invalid(alloc, text)),
        }
    }
}

impl Item for String {
    ghost Value = { List ℕ };

    ghost value = { λ text. string_bytes text };

    ghost printed = { λ text. string_bytes text };

    ghost meaning = { λ text. Some text };

    fn print(&self, out: &mut String) -> Result<()> {
        append(self.as_str(), out)
    }

    fn parse(alloc: Global, text: &str) -> Result<String> {
        Ok(String::from_str(alloc, text)?)
    }
}
