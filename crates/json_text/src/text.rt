// Whether a text is JSON (RFC 8259): one value to a depth of 32, white space around it, nothing behind.

ghost use Rattle.std.specs.Prelude.{◌≡◌};
ghost use Rattle.json_text.specs.Grammar.{deepest, is_json};

pub fn is_json(s: &[u8]) -> bool
    ensures { result ≡ is_json deepest s.now }
{
    let e = crate::skip_value(s, crate::tokens::skip_ws(s, 0), 32);
    if e == 0 {
        return false;
    }
    crate::tokens::skip_ws(s, e) == s.len()
}
