// The fields of a deposit card: signed numbers as 32 bits, and whether each field stands at its place.
pub mod twos;

ghost use Rattle.std.specs.Prelude.{◌≡◌, ◌+◌, ◌≤◌, length, get_or};
ghost use Rattle.card.specs.fields.Fields.{field_at, six_fields, card_offset_at, offset_field, kind_field};

use endian;
use morton::grid::Offset;

pub fn byte(s: &[u8], at: usize) -> u8
    requires { at + 1 ≤ length s.now }
    ensures { result ≡ get_or s.now at 0 }
{
    s[at]
}

// A field with this tag and this length begins at the place.
fn field_at(s: &[u8], at: usize, tag: u8, len: u16) -> bool
    requires { at + 3 ≤ length s.now }
    ensures { result ≡ field_at tag len s.now at }
{
    (byte(s, at) == tag) & (endian::read_u16(s, at + 1) == len)
}

// The six fields that each card has.
pub fn six_fields(s: &[u8]) -> bool
    requires { 46 ≤ length s.now }
    ensures { result ≡ six_fields s.now }
{
    field_at(s, 0, 1, 1)
        & (field_at(s, 4, 2, 1)
            & (field_at(s, 8, 3, 1)
                & (field_at(s, 12, 4, 1) & (field_at(s, 16, 5, 12) & field_at(s, 31, 6, 12)))))
}

pub fn offset_at(s: &[u8], at: usize) -> Offset
    requires { at + 12 ≤ length s.now }
    ensures { result ≡ card_offset_at s.now at }
{
    Offset {
        x: twos::signed(endian::read_u32(s, at)),
        y: twos::signed(endian::read_u32(s, at + 4)),
        z: twos::signed(endian::read_u32(s, at + 8)),
    }
}

// The seventh field, where it is present.
pub fn offset_field(s: &[u8]) -> bool
    requires { 61 ≤ length s.now }
    ensures { result ≡ offset_field s.now }
{
    field_at(s, 46, 7, 12) & !twos::no_offset(offset_at(s, 49))
}

// The eighth field, where it is present: it says mesh, 1.
pub fn kind_field(s: &[u8], at: usize) -> bool
    requires { at + 4 ≤ length s.now }
    ensures { result ≡ kind_field s.now at }
{
    field_at(s, at, 8, 1) & (byte(s, at + 3) == 1)
}
