//! Entries. Each is built whole before it is put, except for a long value, which is put in pieces after its key and doesn't
//! allocate.

ghost use Rattle.std.specs.Prelude.{◌≡◌, ◌==◌, ◌||◌, cond, ◌≤◌, ◌++◌, [], length, take, Some, Err, OnOk, OnErr, IfOk, IfErr, IsNone, option_map};
ghost use Rattle.qs_spec.specs.Config.{Config as Settings};
ghost use Rattle.qs_spec.specs.Entry.{one};
ghost use Rattle.qs_spec.specs.Escape.{encoded};
ghost use Rattle.std.specs.List.{All};
ghost use Rattle.qs_spec.specs.Written.{open_bytes, close_bytes, value_text};
ghost use Rattle.qs_data.specs.write.Scalars.{scalar_text};
ghost use Rattle.qs_data.specs.write.State.{IsVisible};
ghost use Rattle.qs_data.specs.write.Writes.{IsAt, EntersAt, IsBarred, LeavesAt, WritesTo, grown};
ghost use Rattle.qs_data.specs.declared.write.stop.Stop.TheVariants.{OutOfMemory};

use crate::write::scalar::Scalar;
use crate::write::sink::{Sink, put_all, put_encoded};
use crate::write::stop::Stop;
use crate::write::text::TextBuffer;
use qs_tree::Config;
use std::alloc::{AllocError, Global};

/// Where entries go: the sink, and whether an entry with a key was put to it.
#[derive(Drop)]
pub(crate) struct Stream<S> {
    pub(crate) sink: S,
    pub(crate) started: bool,
}

/// Where a walk over data is, and how it writes.
#[derive(Drop)]
pub(crate) struct Walk {
    /// How it writes.
    pub(crate) config: Config,
    /// How many segments lead there.
    depth: usize,
    /// Their text after an `&`. Entering a segment appends, leaving it truncates.
    text: TextBuffer,
}

impl Walk {
    /// Returns a walk that begins at the top.
    pub(crate) fn new(alloc: Global, config: Config) -> Walk
        ensures { IsAt config [] result }
    {
        Walk {
            config,
            depth: 0,
            text: TextBuffer::new(alloc),
        }
    }

    /// Enters one more segment, unless the path is as long as the limit allows. Returns the length of the text before.
    #[inline(always)]
    pub(crate) fn enter(&mut self, segment: Scalar<'_>) -> Result<usize, Stop>
        ensures len { IfOk result (λ len. len ≡ length self.old.text) }
        ensures ok { OnOk result ((config : Settings) → EntersAt config (scalar_text segment.entry) self.old self.new) }
        ensures err { IfErr result (λ stop. (config : Settings) → IsBarred config stop self.old) }
    {
        if self.config.get_max_depth() < self.depth {
            return Err(Stop::TooDeep);
        }
        let len = self.text.len();
        append_segment(&mut self.text, self.config.get_form(), segment)?;
        self.depth = self.depth.saturating_add(1);
        Ok(len)
    }

    /// Leaves the last segment, before which the text had this length.
    pub(crate) fn leave(&mut self, len: usize)
        ensures { (config : Settings) → LeavesAt config len self.old self.new }
    {
        self.text.truncate(len);
        self.depth = self.depth.saturating_sub(1);
    }
}

// Appends one more segment: the first after an `&`, and the others in brackets.
#[tactic(auto, using(crate::proofs::lemmas::write::Visible::joined))]
fn append_segment(
    out: &mut TextBuffer,
    is_form: bool,
    segment: Scalar<'_>,
) -> Result<(), AllocError>
    ensures ok { OnOk result (out.new ≡ grown is_form out.old (scalar_text segment.entry)) }
    ensures visible { All IsVisible out.old → OnOk result (All IsVisible out.new) }
{
    if out.len() == 0 {
        out.append(b"&")?;
        return segment.append(is_form, out);
    }
    open_bracket(is_form, out)?;
    segment.append(is_form, out)?;
    close_bracket(is_form, out)?;
    Ok(())
}

// Appends an opening bracket, encoded if `is_form`.
#[inline(always)]
fn open_bracket(is_form: bool, out: &mut TextBuffer) -> Result<(), AllocError>
    ensures { OnOk result (out.new ≡ out.old ++ open_bytes is_form) }
{
    if is_form {
        out.append(b"%5B")
    } else {
        out.append(b"[")
    }
}

// Appends a closing bracket, encoded if `is_form`.
#[inline(always)]
fn close_bracket(is_form: bool, out: &mut TextBuffer) -> Result<(), AllocError>
    ensures { OnOk result (out.new ≡ out.old ++ close_bytes is_form) }
{
    if is_form {
        out.append(b"%5D")
    } else {
        out.append(b"]")
    }
}

// Appends `=` and the value, if there is one. For a long value, appends only `=` and returns the value.
#[inline(always)]
#[tactic(auto, using(crate::proofs::lemmas::write::Visible::joined))]
fn append_value<'a>(
    out: &mut TextBuffer,
    is_form: bool,
    value: Option<Scalar<'a>>,
) -> Result<&'a [u8], AllocError>
    ensures ok { IfOk result (λ rest. out.new ++ encoded is_form rest.now ≡ out.old ++ value_text is_form (option_map scalar_text value.entry)) }
    ensures kept { IfOk result (λ rest. take (length out.old) out.new ≡ out.old) }
    ensures visible { All IsVisible out.old → IfOk result (λ rest. All IsVisible (out.new ++ encoded is_form rest.now)) }
    ensures unallocated { IsNone value.entry → OnErr result ⊥ }
{
    let Some(scalar) = value else {
        return Ok(&[]);
    };
    out.append(b"=")?;
    let rest = scalar.long_bytes();
    if !rest.is_empty() {
        return Ok(rest);
    }
    scalar.append(is_form, out)?;
    Ok(&[])
}

/// Puts the entry at the walk's path, with this value or without one. A long value isn't copied: it is put in pieces.
pub(crate) fn put<S: Sink>(
    stream: &mut Stream<S>,
    walk: &mut Walk,
    value: Option<Scalar<'_>>,
) -> Result<(), Stop>
    ensures writes { WritesTo S.taken S.failed S.writer_name result stream.old stream.new walk.old walk.new
        (λ config path. one path (option_map scalar_text value.entry)) }
    ensures unallocated { walk.old.text ≡ [] → IsNone value.entry → result ≡ Err OutOfMemory → ⊥ }
{
    let is_form = walk.config.get_form();
    let len = walk.text.len();
    let rest = append_value(&mut walk.text, is_form, value)?;
    let start = skipped(stream.started, len);
    put_all(&mut stream.sink, walk.text.after(start))?;
    put_encoded(&mut stream.sink, rest, is_form)?;
    walk.text.truncate(len);
    stream.started |= len != 0;
    Ok(())
}

/// Puts the entry at the walk's path, with an empty value.
pub(crate) fn put_empty<S: Sink>(stream: &mut Stream<S>, walk: &mut Walk) -> Result<(), Stop>
    ensures writes { WritesTo S.taken S.failed S.writer_name result stream.old stream.new walk.old walk.new
        (λ config path. one path (Some [])) }
    ensures unallocated { walk.old.text ≡ [] → result ≡ Err OutOfMemory → ⊥ }
{
    if walk.text.len() != 0 {
        return put(stream, walk, Some(Scalar::Bytes(&[])));
    }
    put_all(&mut stream.sink, b"=")?;
    Ok(())
}

// Returns how many bytes of the text are left out: the `&`, if no entry with a key was put before.
fn skipped(started: bool, len: usize) -> usize
    ensures skips { result ≡ cond (started || len == 0) 0 1 }
    ensures within { result ≤ len }
{
    if started || len == 0 { 0 } else { 1 }
}
