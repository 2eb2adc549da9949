//! A scan over an input that finds where its pairs begin and their keys end.

ghost use Rattle.std.specs.Prelude.{◌≡◌, ◌≤◌, length};
ghost use Rattle.qs_explain.specs.PairRange.{key_len};
ghost use Rattle.qs_explain.specs.States.{begins_after, kind_after, next_state, opened, pair_start};

/// The kind of a byte, given the two before it.
#[derive(Clone, Copy, PartialEq, Eq)]
pub(crate) enum ByteKind {
    Ampersand,
    Equals,
    Open,
    Close,
    Other,
}

/// Where in its pair a byte is.
#[derive(Clone, Copy)]
pub(crate) enum State {
    /// In the key, before its brackets.
    Root,
    /// In brackets. This many more may follow them.
    Inside(usize),
    /// After brackets. This many more may follow.
    After(usize),
    /// Right after the bracket that begins the last segment, at the depth limit.
    LastFirst,
    /// Later in the last segment.
    Last,
    /// In the value.
    Value,
}

/// Returns where the last pair of the input begins, if the input has no error before its end.
pub(crate) fn find_start(is_form: bool, max_depth: usize, input: &[u8]) -> usize
    ensures value { result ≡ pair_start is_form max_depth input.now }
    ensures within { result ≤ length input.now }
{
    let mut state = State::Root;
    let mut start = 0;
    let mut before = (0u8, 0u8);
    for (at, byte) in input.iter().enumerate() {
        let kind = kind_after(is_form, before.0, before.1, *byte);
        if begins_after(state, kind) {
            start = at + 1;
        }
        state = next_state(max_depth, state, kind);
        before = (before.1, *byte);
    }
    start
}

/// Returns the length of a pair's key: up to the first `=` outside brackets, or else the whole pair.
pub(crate) fn find_key_len(is_form: bool, max_depth: usize, pair: &[u8]) -> usize
    ensures value { result ≡ key_len is_form max_depth pair.now }
    ensures within { result ≤ length pair.now }
{
    let mut state = State::Root;
    let mut before = (0u8, 0u8);
    for (at, byte) in pair.iter().enumerate() {
        let kind = kind_after(is_form, before.0, before.1, *byte);
        state = next_state(max_depth, state, kind);
        if let State::Value = state {
            return at;
        }
        before = (before.1, *byte);
    }
    pair.len()
}

// Returns the kind of a byte. In form mode the last byte of `%5B` or `%5D` is a bracket.
fn kind_after(is_form: bool, percent: u8, five: u8, byte: u8) -> ByteKind
    ensures { result ≡ kind_after is_form percent five byte }
{
    let is_escape = is_form && percent == b'%' && five == b'5';
    if byte == b'&' {
        ByteKind::Ampersand
    } else if byte == b'=' {
        ByteKind::Equals
    } else if byte == b'[' || is_escape && byte == b'B' {
        ByteKind::Open
    } else if byte == b']' || is_escape && byte == b'D' {
        ByteKind::Close
    } else {
        ByteKind::Other
    }
}

// Returns whether another pair begins after a byte. In brackets an `&` is a byte of the key.
fn begins_after(state: State, kind: ByteKind) -> bool
    ensures { result ≡ begins_after state kind }
{
    match state {
        State::Inside(_) | State::LastFirst => false,
        State::Root | State::After(_) | State::Last | State::Value => kind == ByteKind::Ampersand,
    }
}

// Returns the state at the next byte.
fn next_state(max_depth: usize, state: State, kind: ByteKind) -> State
    ensures { result ≡ next_state max_depth state kind }
{
    match state {
        State::Root => match kind {
            ByteKind::Open => opened(max_depth, State::Root),
            ByteKind::Equals => State::Value,
            ByteKind::Ampersand | ByteKind::Close | ByteKind::Other => State::Root,
        },
        State::Inside(room) => match kind {
            ByteKind::Close => State::After(room),
            ByteKind::Open | ByteKind::Equals | ByteKind::Ampersand | ByteKind::Other =>
                State::Inside(room),
        },
        State::After(room) => match kind {
            ByteKind::Open => opened(room, State::LastFirst),
            ByteKind::Equals => State::Value,
            ByteKind::Ampersand => State::Root,
            ByteKind::Close | ByteKind::Other => State::After(room),
        },
        State::LastFirst => match kind {
            ByteKind::Close => State::After(0),
            ByteKind::Open | ByteKind::Equals | ByteKind::Ampersand | ByteKind::Other =>
                State::Last,
        },
        State::Last => match kind {
            ByteKind::Equals => State::Value,
            ByteKind::Ampersand => State::Root,
            ByteKind::Open | ByteKind::Close | ByteKind::Other => State::Last,
        },
        State::Value => match kind {
            ByteKind::Ampersand => State::Root,
            ByteKind::Open | ByteKind::Close | ByteKind::Equals | ByteKind::Other => State::Value,
        },
    }
}

// Returns the state after an opening bracket: in it, if another level is allowed, or else `full`.
fn opened(room: usize, full: State) -> State
    ensures { result ≡ opened room full }
{
    if room == 0 {
        full
    } else {
        State::Inside(room - 1)
    }
}
