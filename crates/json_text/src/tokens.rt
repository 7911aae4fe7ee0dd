// Bytes of a text, and where its white space, marks and numbers end (RFC 8259): a position, if there is one.
mod numbers;

ghost use Rattle.std.specs.Prelude.{◌≡◌, ℕ, ◌≤◌, ◌<◌, max, true, false, get_or, length};
ghost use Rattle.json_text.specs.tokens.Bytes.{is_ws, is_digit};
ghost use Rattle.json_text.specs.tokens.Parts.{ws, mark_at, close_at, word_at};
ghost use Rattle.json_text.specs.tokens.Numbers.{number_at};

// The byte at i, and 0 past the end.
pub fn byte(s: &[u8], i: usize) -> u8
    ensures { result ≡ get_or s.now i 0 }
{
    if i < s.len() { s[i] } else { 0 }
}

// The first position from `at` on whose byte is not in the class; past the end, where there is no byte, it is `at`.
pub(crate) fn skip_class<F: Fn(u8) -> bool>(s: &[u8], at: usize, class: F) -> usize
    requires { F.IsAlwaysCallable class }
    ensures range { (at ≤ result) × (result ≤ max at (length s.now)) }
    ensures passed { (k : ℕ) → at ≤ k → k < result → F.post class (get_or s.now k 0) true }
    ensures stopped { result < length s.now → F.post class (get_or s.now result 0) false }
{
    for i in at..s.len() {
        if !class(s[i]) {
            return i;
        }
    }
    at.max(s.len())
}

#[tactic(auto, unfolding(crate::specs::tokens::Bytes::is_ws, crate::specs::tokens::Bytes::same))]
fn is_ws(b: u8) -> bool
    ensures { result ≡ is_ws b }
{
    (b == 32) | ((b == 9) | ((b == 10) | (b == 13)))
}

#[tactic(auto, unfolding(crate::specs::tokens::Bytes::is_digit, crate::specs::tokens::Bytes::inside))]
pub fn is_digit(b: u8) -> bool
    ensures { result ≡ is_digit b }
{
    b.is_ascii_digit()
}

pub fn skip_ws(s: &[u8], at: usize) -> usize
    ensures { result ≡ ws s.now at }
{
    skip_class(s, at, |b| is_ws(b))
}

// White space, the mark, white space.
#[tactic(auto, unfolding(crate::specs::tokens::Parts::mark_at, crate::specs::tokens::Bytes::choose, crate::specs::tokens::Bytes::same))]
pub fn skip_mark(s: &[u8], at: usize, mark: u8) -> Option<usize>
    requires { 0 < mark }
    ensures { result ≡ mark_at mark s.now at }
{
    let i = skip_ws(s, at);
    if byte(s, i) != mark {
        return None;
    }
    Some(skip_ws(s, i + 1))
}

// White space, the mark.
#[tactic(auto, unfolding(crate::specs::tokens::Parts::close_at, crate::specs::tokens::Bytes::choose, crate::specs::tokens::Bytes::same))]
pub fn skip_close(s: &[u8], at: usize, mark: u8) -> Option<usize>
    requires { 0 < mark }
    ensures { result ≡ close_at mark s.now at }
{
    let i = skip_ws(s, at);
    if byte(s, i) != mark {
        return None;
    }
    Some(i + 1)
}

// The four bytes.
#[tactic(auto, unfolding(crate::specs::tokens::Parts::word_at, crate::specs::tokens::Bytes::choose, crate::specs::tokens::Bytes::same))]
pub fn skip_word(s: &[u8], at: usize, a: u8, b: u8, c: u8, d: u8) -> Option<usize>
    requires { at ≤ length s.now }
    ensures { result ≡ word_at s.now at a b c d }
{
    let p = byte(s, at);
    let q = byte(s, at + 1);
    let u = byte(s, at + 2);
    let v = byte(s, at + 3);
    if (p == a) & ((q == b) & ((u == c) & (v == d))) {
        return Some(at + 4);
    }
    None
}

#[tactic(auto, unfolding(crate::specs::tokens::Numbers::number_at, crate::specs::tokens::Bytes::choose, crate::specs::tokens::Bytes::same))]
pub fn skip_number(s: &[u8], at: usize) -> Option<usize>
    ensures { result ≡ number_at s.now at }
{
    if byte(s, at) == 45 {
        return numbers::skip_unsigned(s, at + 1);
    }
    numbers::skip_unsigned(s, at)
}
