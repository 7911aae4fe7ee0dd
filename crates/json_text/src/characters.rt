// Characters of a JSON text: escapes, and sequences of UTF-8.

ghost use Rattle.std.specs.Prelude.{◌≡◌, ◌+◌, ◌<◌, get_or, length};
ghost use Rattle.json_text.specs.tokens.Bytes.{span};
ghost use Rattle.json_text.specs.characters.Chars.{is_hex, is_short, is_plain, is_tail, is_second, utf8_len, escape_len, char_len};

#[tactic(auto, unfolding(crate::specs::characters::Chars::is_hex, crate::specs::tokens::Bytes::inside))]
fn is_hex(b: u8) -> bool
    ensures { result ≡ is_hex b }
{
    b.is_ascii_hexdigit()
}

#[tactic(auto, unfolding(crate::specs::characters::Chars::is_short, crate::specs::tokens::Bytes::same))]
fn is_short(b: u8) -> bool
    ensures { result ≡ is_short b }
{
    (b == 34)
        | ((b == 92)
            | ((b == 47) | ((b == 98) | ((b == 102) | ((b == 110) | ((b == 114) | (b == 116)))))))
}

#[tactic(auto, unfolding(crate::specs::characters::Chars::is_plain, crate::specs::tokens::Bytes::same, crate::specs::tokens::Bytes::inside))]
pub fn is_plain(b: u8) -> bool
    ensures { result ≡ is_plain b }
{
    ((32 <= b) & (b <= 127)) & (!(b == 34) & !(b == 92))
}

// Most of a string: characters of one byte, passed with no call.
pub fn skip_plain(s: &[u8], at: usize) -> usize
    ensures { result ≡ span is_plain s.now at }
{
    crate::tokens::skip_class(s, at, |b| is_plain(b))
}

#[tactic(auto, unfolding(crate::specs::characters::Chars::is_tail, crate::specs::tokens::Bytes::inside))]
fn is_tail(c: u8) -> bool
    ensures { result ≡ is_tail c }
{
    (128 <= c) & (c <= 191)
}

// No overlong form, no surrogate, nothing above U+10FFFF.
#[tactic(auto, unfolding(crate::specs::characters::Chars::is_second, crate::specs::tokens::Bytes::same, crate::specs::tokens::Bytes::inside))]
fn is_second(b: u8, c: u8) -> bool
    ensures { result ≡ is_second b c }
{
    ((128 <= c) & (c <= 191))
        & ((!(b == 224) | (160 <= c))
            & ((!(b == 237) | (c <= 159))
                & ((!(b == 240) | (144 <= c)) & (!(b == 244) | (c <= 143)))))
}

#[tactic(auto, unfolding(crate::specs::characters::Chars::utf8_len, crate::specs::tokens::Bytes::choose, crate::specs::tokens::Bytes::under, crate::specs::tokens::Bytes::inside))]
fn utf8_len(b: u8, c: u8, d: u8, e: u8) -> usize
    ensures { result ≡ utf8_len b c d e }
{
    if b < 128 {
        return 1;
    }
    let second = is_second(b, c);
    if ((194 <= b) & (b <= 223)) & second {
        return 2;
    }
    let third = is_tail(d);
    if ((224 <= b) & (b <= 239)) & (second & third) {
        return 3;
    }
    let fourth = is_tail(e);
    if ((240 <= b) & (b <= 244)) & (second & (third & fourth)) {
        return 4;
    }
    0
}

#[tactic(auto, unfolding(crate::specs::characters::Chars::escape_len, crate::specs::tokens::Bytes::choose, crate::specs::tokens::Bytes::same))]
fn escape_len(b: u8, c: u8, d: u8, e: u8, f: u8) -> usize
    ensures { result ≡ escape_len b c d e f }
{
    if is_short(b) {
        return 2;
    }
    let first = is_hex(c);
    let second = is_hex(d);
    let third = is_hex(e);
    let fourth = is_hex(f);
    if (b == 117) & (first & (second & (third & fourth))) {
        return 6;
    }
    0
}

// The escape whose backslash stands at i.
fn escape_at(s: &[u8], i: usize) -> usize
    requires { i < length s.now }
    ensures { result ≡ escape_len (get_or s.now (i + 1) 0) (get_or s.now (i + 2) 0) (get_or s.now (i + 3) 0) (get_or s.now (i + 4) 0) (get_or s.now (i + 5) 0) }
{
    let b = crate::tokens::byte(s, i + 1);
    let c = crate::tokens::byte(s, i + 2);
    let d = crate::tokens::byte(s, i + 3);
    let e = crate::tokens::byte(s, i + 4);
    let f = crate::tokens::byte(s, i + 5);
    escape_len(b, c, d, e, f)
}

// The UTF-8 sequence at i, whose first byte is b.
fn utf8_at(s: &[u8], i: usize, b: u8) -> usize
    requires { i < length s.now }
    ensures { result ≡ utf8_len b (get_or s.now (i + 1) 0) (get_or s.now (i + 2) 0) (get_or s.now (i + 3) 0) }
{
    let c = crate::tokens::byte(s, i + 1);
    let d = crate::tokens::byte(s, i + 2);
    let e = crate::tokens::byte(s, i + 3);
    utf8_len(b, c, d, e)
}

#[tactic(auto, unfolding(crate::specs::characters::Chars::char_len, crate::specs::tokens::Bytes::under, crate::specs::tokens::Bytes::choose, crate::specs::tokens::Bytes::same))]
pub fn char_len(s: &[u8], i: usize) -> usize
    ensures { result ≡ char_len s.now i }
{
    let b = crate::tokens::byte(s, i);
    if b < 32 {
        return 0;
    }
    if b == b'"' {
        return 0;
    }
    if b == b'\\' {
        return escape_at(s, i);
    }
    utf8_at(s, i, b)
}
