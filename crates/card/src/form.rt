// Which bytes are a deposit card: its fields, by its length.

ghost use Rattle.std.specs.Prelude.{◌≡◌};
ghost use Rattle.card.specs.form.Form.{well_formed};

use crate::fields::{kind_field, offset_field, six_fields};

pub fn well_formed(s: &[u8]) -> bool
    ensures { result ≡ well_formed s.now }
{
    if s.len() == 46 {
        return six_fields(s);
    }
    if s.len() == 61 {
        return six_fields(s) & offset_field(s);
    }
    if s.len() == 50 {
        return six_fields(s) & kind_field(s, 46);
    }
    if s.len() == 65 {
        return six_fields(s) & (offset_field(s) & kind_field(s, 61));
    }
    false
}
