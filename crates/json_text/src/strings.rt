// Strings of a JSON text: where they end, and whether they say a name.
mod names;

ghost use Rattle.std.specs.Prelude.{◌≡◌, true, ◌+◌, length};
ghost use Rattle.json_text.specs.strings.Chars.{string_at};
ghost use Rattle.json_text.specs.strings.Names.{unescaped, eq_list, ascii};

use crate::characters;

pub fn skip_string(s: &[u8], at: usize) -> Option<usize>
    ensures { result ≡ string_at s.now at }
{
    if crate::tokens::byte(s, at) != b'"' {
        return None;
    }
    let mut i = at + 1;
    // Not a `for` over positions: a step is as long as the run and the character that it passes.
    loop {
        let e = characters::skip_plain(s, i);
        if crate::tokens::byte(s, e) == b'"' {
            return Some(e + 1);
        }
        let n = characters::char_len(s, e);
        if n == 0 {
            return None;
        }
        i = e + n;
    }
}

// Do the characters from `at` on, unescaped, say the name, which is ASCII? For names that are likely
// to be others: the first byte is tried alone.
pub fn name_is(s: &[u8], at: usize, name: &[u8]) -> bool
    requires { ascii name.now ≡ true }
    ensures { result ≡ eq_list (unescaped s.now (length s.now + 1) at) name.now }
{
    if names::differs(s, at, name) {
        return false;
    }
    says(s, at, name)
}

// The same, character by character.
pub fn says(s: &[u8], at: usize, name: &[u8]) -> bool
    requires { ascii name.now ≡ true }
    ensures { result ≡ eq_list (unescaped s.now (length s.now + 1) at) name.now }
{
    let mut i = at;
    for b in name {
        let n = characters::char_len(s, i);
        if n == 0 {
            return false;
        }
        if names::ascii_at(s, i) != *b {
            return false;
        }
        i += n;
    }
    characters::char_len(s, i) == 0
}
