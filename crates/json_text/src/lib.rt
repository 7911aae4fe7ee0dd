// JSON text (RFC 8259): where its values end, to a depth.
#![tactic(auto)]

pub mod characters;
pub mod members;
pub mod strings;
pub mod text;
pub mod tokens;

ghost use Rattle.std.specs.Prelude.{◌≡◌, ◌<◌};
ghost use Rattle.json_text.specs.Grammar.{end_of, scalar_at, next_at, list_at, member_at, value_at};

use std::ops::ControlFlow;
pub use text::is_json;

#[tactic(auto, unfolding(crate::specs::Grammar::scalar_at, crate::specs::tokens::Bytes::choose, crate::specs::tokens::Bytes::same))]
fn skip_scalar(s: &[u8], at: usize) -> Option<usize>
    ensures { result ≡ scalar_at s.now at }
{
    let b = crate::tokens::byte(s, at);
    if b == b'"' {
        return crate::strings::skip_string(s, at);
    }
    if b == b't' {
        return crate::tokens::skip_word(s, at, 116, 114, 117, 101);
    }
    if b == b'n' {
        return crate::tokens::skip_word(s, at, 110, 117, 108, 108);
    }
    if b == b'f' {
        return crate::tokens::skip_word(s, at + 1, 97, 108, 115, 101);
    }
    crate::tokens::skip_number(s, at)
}

// One step along the items of an array or object, from where an item ends (0: there is none): on to the item behind the comma, or
// to the end of the whole behind the closing bracket, 0 where it has none.
#[tactic(auto, unfolding(crate::specs::Grammar::next_at, crate::specs::tokens::Parts::follow, crate::specs::Grammar::end_of, crate::specs::tokens::Bytes::choose, crate::specs::tokens::Bytes::same))]
fn next_item(s: &[u8], e: usize, close: u8) -> ControlFlow<usize, usize>
    requires { 0 < close }
    ensures { result ≡ next_at close s.now e }
{
    if e == 0 {
        return ControlFlow::Break(0);
    }
    let Some(j) = crate::tokens::skip_mark(s, e, b',') else {
        return ControlFlow::Break(crate::tokens::skip_close(s, e, close).unwrap_or(0));
    };
    ControlFlow::Continue(j)
}

// The cycle: a value, what stands in an array and in an object, and one member of an object, each by where it ends as one number, which
// calls hand back in a register. 0: there is none.
#[cycle(skippers)]
pub fn skip_value(s: &[u8], at: usize, depth: usize) -> usize
    ensures { result ≡ end_of (value_at depth s.now at) }
{
    if depth == 0 {
        return 0;
    }
    let b = crate::tokens::byte(s, at);
    if b == b'{' {
        return skip_object(s, at + 1, depth - 1);
    }
    if b == b'[' {
        return skip_array(s, at + 1, depth - 1);
    }
    skip_scalar(s, at).unwrap_or(0)
}

#[cycle(skippers)]
fn skip_array(s: &[u8], at: usize, depth: usize) -> usize
    ensures { result ≡ end_of (list_at (value_at depth s.now) 93 s.now at) }
{
    let mut i = crate::tokens::skip_ws(s, at);
    if crate::tokens::byte(s, i) == b']' {
        return i + 1;
    }
    // Not a `for` over positions: where the next item begins is known only once this one has been passed.
    loop {
        match next_item(s, skip_value(s, i, depth), b']') {
            ControlFlow::Continue(j) => i = j,
            ControlFlow::Break(e) => return e,
        }
    }
}

// What this and `skip_array` share is `next_item`. One function for both would take the item's skipper and the bracket from its caller,
// in the midst of the cycle that the skippers are, and be no plainer.
#[cycle(skippers)]
fn skip_object(s: &[u8], at: usize, depth: usize) -> usize
    ensures { result ≡ end_of (list_at (member_at (value_at depth s.now) s.now) 125 s.now at) }
{
    let mut i = crate::tokens::skip_ws(s, at);
    if crate::tokens::byte(s, i) == b'}' {
        return i + 1;
    }
    // Not a `for` over positions: where the next item begins is known only once this one has been passed.
    loop {
        match next_item(s, skip_member(s, i, depth), b'}') {
            ControlFlow::Continue(j) => i = j,
            ControlFlow::Break(e) => return e,
        }
    }
}

#[cycle(skippers)]
fn skip_member(s: &[u8], at: usize, depth: usize) -> usize
    ensures { result ≡ end_of (member_at (value_at depth s.now) s.now at) }
{
    let Some(e) = crate::strings::skip_string(s, at) else {
        return 0;
    };
    let Some(j) = crate::tokens::skip_mark(s, e, b':') else {
        return 0;
    };
    skip_value(s, j, depth)
}
