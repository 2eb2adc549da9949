//! The form in a request's body.

ghost use Rattle.serde_qs.specs.Typed.{ReturnsValue, ReturnsWritten};

use serde_qs::web::QsForm;
use serde_qs::{Config, ConfigExt, Deserialize, Result};
use std::alloc::Global;

/// Returns the value that is read from a request's body under a configuration.
///
/// A body of the type `application/x-www-form-urlencoded` (URL Standard, section 5) needs
/// [`use_form_encoding`](Config::use_form_encoding), since a browser escapes the brackets of names.
///
/// ```
/// let config = Config::new().use_form_encoding(true);
/// let order: QsForm<Order> = form(alloc, b"item=7&tags%5B%5D=new", config)?;
/// ```
///
/// Errors, allocations and time are as for [`from_bytes`](serde_qs::from_bytes) with this configuration.
pub fn form<T: Deserialize>(alloc: Global, body: &[u8], config: Config) -> Result<QsForm<T>>
    ensures exact { ReturnsValue (λ form. T.table.value form.0) config T.table.shape T.table.meaning body.now result }
    ensures back { ReturnsWritten (λ form. T.table.value form.0) config T.table.shape T.table.meaning body.now result }
{
    config.deserialize_bytes(alloc, body).map(QsForm)
}
