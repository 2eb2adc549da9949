//! The reply to a web form: the value that was sent, or a message beside each wrong field.

ghost use Rattle.std.specs.Prelude.{true};
ghost use Rattle.qs_callers.specs.Reply.{Replies};
ghost use Rattle.qs_spec.specs.Config.{default};

use qs_explain::{Explanation, Mismatch, explain_fields, find_hint, find_pair};
use serde_qs::{Config, Deserialize, Error, Rejection, Result, Shape, read_explained};
use std::alloc::{AllocError, Global};

/// A message beside a field of a form.
#[derive(Debug, PartialEq, Eq, Drop)]
pub struct FieldError {
    /// The name of the wrong field, as its input has it on the page: `address[city]`. Empty if the form as a whole is wrong.
    pub field: String,
    /// What is wrong with it.
    pub message: String,
}

/// Returns the value that is read from a form, or the errors of its wrong fields if no value is read.
///
/// The only error is that an allocation failed.
///
/// ```
/// let reply = submitted::<Person>(alloc, b"age=300")?; // of `name`: expected a text, found nothing; of `age`: expected u8, found the text "300"
/// ```
#[tactic(auto, using(crate::proofs::Unread::unread))]
pub fn submitted<T: Deserialize>(
    alloc: Global,
    form: &[u8],
) -> Result<std::result::Result<T, Vec<FieldError>>>
    ensures { Replies T.table.value (record default { is_form = true }) T.table.shape T.table.meaning form.now result }
{
    let config = Config::new().use_form_encoding(true);
    match read_explained(alloc, config, form)? {
        Ok(value) => Ok(Ok(value)),
        Err(rejection) => Ok(Err(field_errors(
            alloc,
            config,
            &T::shape(alloc)?,
            form,
            &rejection,
        )?)),
    }
}

// Returns the errors of a form from which no value is read.
fn field_errors(
    alloc: Global,
    config: Config,
    shape: &Shape,
    form: &[u8],
    rejection: &Rejection,
) -> std::result::Result<Vec<FieldError>, AllocError> {
    let mut wrong = Vec::new(alloc);
    for explanation in explain_fields(alloc, config, shape, form)? {
        wrong.push(field_error(alloc, config, form, &explanation)?)?;
    }
    if wrong.is_empty() {
        wrong.push(of_type(alloc, rejection)?)?;
    }
    Ok(wrong)
}

// Returns the error of an explanation.
fn field_error(
    alloc: Global,
    config: Config,
    form: &[u8],
    explanation: &Explanation,
) -> std::result::Result<FieldError, AllocError> {
    let wrong = match explanation {
        Explanation::Mismatch(mismatch) => of_mismatch(alloc, mismatch)?,
        Explanation::Syntax(error) => of_syntax(alloc, config, form, error)?,
        Explanation::NoPairs => of_the_whole(alloc, explanation)?,
    };
    with_hint(alloc, config, form, wrong)
}

// Returns the error of a part that isn't read.
fn of_mismatch(alloc: Global, mismatch: &Mismatch) -> std::result::Result<FieldError, AllocError> {
    let mut field = String::new(alloc);
    for (i, segment) in mismatch.path.iter().enumerate() {
        let name = segment.to_string(alloc)?;
        if i == 0 {
            field.push_str(&name)?;
        } else {
            field.push_str("[")?;
            field.push_str(&name)?;
            field.push_str("]")?;
        }
    }
    let message = mismatch.problem.to_string(alloc)?;
    Ok(FieldError { field, message })
}

// Returns the error of a part that its shape reads and its type rejects.
fn of_type(alloc: Global, rejection: &Rejection) -> std::result::Result<FieldError, AllocError> {
    let field = rejection.path.to_string(alloc)?;
    let message = rejection.error.to_string(alloc)?;
    Ok(FieldError { field, message })
}

// Returns the error of a form whose wrong field can't be named.
fn of_the_whole(
    alloc: Global,
    explanation: &Explanation,
) -> std::result::Result<FieldError, AllocError> {
    let field = String::new(alloc);
    let message = explanation.to_string(alloc)?;
    Ok(FieldError { field, message })
}

// Returns the error of a key that can't be parsed, or that conflicts with an earlier one. A key whose bracket isn't closed goes on over
// the fields that follow; the name of its input ends at the `=`.
fn of_syntax(
    alloc: Global,
    config: Config,
    form: &[u8],
    error: &Error,
) -> std::result::Result<FieldError, AllocError> {
    let mut field = String::new(alloc);
    if let Error::Parse(_, position) = error {
        let pair = find_pair(config, form, *position);
        let key = String::from_utf8_lossy(alloc, &form[pair.start..pair.key_end])?;
        let (name, _rest) = key.split_once('=').unwrap_or((key.as_str(), ""));
        field = String::from_str(alloc, name)?;
    }
    let message = error.to_string(alloc)?;
    Ok(FieldError { field, message })
}

// Adds what is probably meant if a bracket is escaped.
fn with_hint(
    alloc: Global,
    config: Config,
    form: &[u8],
    wrong: FieldError,
) -> std::result::Result<FieldError, AllocError> {
    let Some(hint) = find_hint(config, form) else {
        return Ok(wrong);
    };
    let FieldError { field, mut message } = wrong;
    message.push_str("; ")?;
    message.push_str(&hint.to_string(alloc)?)?;
    Ok(FieldError { field, message })
}
