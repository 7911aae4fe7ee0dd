// What a character of a string stands for, as far as names of ASCII ask.

ghost use Rattle.std.specs.Prelude.{◌≡◌, ◌+◌, ◌≤◌, ◌<◌, length};
ghost use Rattle.json_text.specs.strings.Names.{hex_value, unit_of, unit_at, short_byte, ascii_of, ascii_at, differs};

#[tactic(auto, unfolding(crate::specs::strings::Names::hex_value, crate::specs::tokens::Bytes::inside, crate::specs::tokens::Bytes::choose))]
fn hex_value(b: u8) -> u8
    ensures { result ≡ hex_value b }
{
    if crate::tokens::is_digit(b) {
        return b - 48;
    }
    if (65 <= b) & (b <= 70) {
        return b - 55;
    }
    if b < 87 {
        return 0;
    }
    b - 87
}

fn unit_of(a: u8, b: u8, c: u8, d: u8) -> usize
    ensures { result ≡ unit_of a b c d }
{
    usize::from(hex_value(a)) * 4096
        + usize::from(hex_value(b)) * 256
        + usize::from(hex_value(c)) * 16
        + usize::from(hex_value(d))
}

// The four hexadecimal digits from i on.
#[tactic(auto, unfolding(crate::specs::strings::Names::unit_at))]
fn unit_at(s: &[u8], i: usize) -> usize
    requires { i ≤ length s.now + 1 }
    ensures { result ≡ unit_at s.now i }
{
    let a = crate::tokens::byte(s, i);
    let b = crate::tokens::byte(s, i + 1);
    let c = crate::tokens::byte(s, i + 2);
    let d = crate::tokens::byte(s, i + 3);
    unit_of(a, b, c, d)
}

#[tactic(auto, unfolding(crate::specs::strings::Names::short_byte, crate::specs::tokens::Bytes::choose, crate::specs::tokens::Bytes::same))]
fn short_byte(b: u8) -> u8
    ensures { result ≡ short_byte b }
{
    if b == b'b' {
        return 8;
    }
    if b == b'f' {
        return 12;
    }
    if b == b'n' {
        return 10;
    }
    if b == b'r' {
        return 13;
    }
    if b == b't' {
        return 9;
    }
    b
}

#[tactic(auto, unfolding(crate::specs::strings::Names::ascii_of, crate::specs::tokens::Bytes::choose, crate::specs::tokens::Bytes::under))]
fn ascii_of(u: usize) -> u8
    ensures { result ≡ ascii_of u }
{
    if u < 128 { u as u8 } else { 128 }
}

// What the character at i stands for, where that is one byte of ASCII, and 128 where it is something else.
#[tactic(auto, unfolding(crate::specs::strings::Names::ascii_at, crate::specs::tokens::Bytes::choose, crate::specs::tokens::Bytes::same))]
pub fn ascii_at(s: &[u8], i: usize) -> u8
    requires { i < length s.now }
    ensures { result ≡ ascii_at s.now i }
{
    let b = crate::tokens::byte(s, i);
    if b != b'\\' {
        return ascii_of(usize::from(b));
    }
    let c = crate::tokens::byte(s, i + 1);
    if c == b'u' {
        return ascii_of(unit_at(s, i + 2));
    }
    ascii_of(usize::from(short_byte(c)))
}

// Does the first byte tell that the text from i on is not the name?
#[tactic(auto, unfolding(crate::specs::strings::Names::differs))]
pub fn differs(s: &[u8], i: usize, name: &[u8]) -> bool
    ensures { result ≡ differs s.now i name.now }
{
    let b = crate::tokens::byte(s, i);
    let a = crate::tokens::byte(name, 0);
    let plain = crate::characters::is_plain(b);
    plain & !(b == a)
}
