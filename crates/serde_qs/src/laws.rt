//! Values that can be read back from what was written.

ghost use Rattle.std.specs.Prelude.{List, false};
ghost use Rattle.qs_spec.specs.Config.{Config as Settings};
ghost use Rattle.qs_spec.specs.Entry.{Entry};
ghost use Rattle.qs_spec.specs.Written.{written};
ghost use Rattle.qs_data.specs.read.ReadBack.{IsOrder};
ghost use Rattle.serde_qs.specs.Typed.{IsPlainWithin, IsRead};

use crate::traits::RoundTrip;

/// The text of a value's entries is read as that value, if its data is plain and within the depth limit; such data fits the value's shape.
/// In the indexed format the entries may be in any order. If lists hold scalars, every format will do, with the entries in an order that
/// keeps those with the same path in order.
///
/// It does nothing when it runs.
///
/// ```
/// value_comes_back(&query); // from here on a proof knows what is read from the text of `query`
/// ```
pub fn value_comes_back<T: RoundTrip>(_value: &T)
    ensures { (config : Settings) (es : List Entry) → IsPlainWithin config (T.datum _value.now) → IsOrder config (T.datum _value.now) es
        → IsRead config T.table.shape T.table.meaning (written config.is_form false es) (T.table.value _value.now) }
{}
