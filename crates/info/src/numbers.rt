// Whole numbers in a JSON text, written without fraction or exponent.

ghost use Rattle.std.specs.Prelude.{◌≡◌, true, ◌-◌, ◌<◌};
ghost use Rattle.json_text.specs.tokens.Bytes.{is_digit};
ghost use Rattle.info.specs.numbers.Numbers.{goes_on_of, digits_from_of, whole_from, natural_at, above_of, below_of, coordinate_at};

// A point or an e behind the digits.
#[tactic(auto, unfolding(crate::specs::numbers::Numbers::goes_on_of))]
fn goes_on(b: u8) -> bool
    ensures { result ≡ goes_on_of b }
{
    (b == b'.') | ((b == b'e') | (b == b'E'))
}

// The value of a digit.
fn digit(b: u8) -> u32
    requires { is_digit b ≡ true }
    ensures { (result ≡ b - 48) × (result < 10) }
{
    u32::from(b - b'0')
}

// The whole number whose digits begin at p, where a digit stands.
fn digits_from(s: &[u8], p: usize) -> Option<u32>
    ensures { result ≡ digits_from_of s.now p }
{
    let mut n: u32 = 0;
    for i in p..s.len() {
        let b = s[i];
        if !json_text::tokens::is_digit(b) {
            return if goes_on(b) { None } else { Some(n) };
        }
        n = n.checked_mul(10)?.checked_add(digit(b))?;
    }
    Some(n)
}

// The whole number whose digits begin at p.
#[tactic(auto, unfolding(crate::specs::numbers::Numbers::whole_from))]
fn whole_from(s: &[u8], p: usize) -> Option<u32>
    ensures { result ≡ whole_from s.now p }
{
    if !json_text::tokens::is_digit(json_text::tokens::byte(s, p)) {
        return None;
    }
    digits_from(s, p)
}

// The number of 0 or more that is written at p.
#[tactic(auto, unfolding(crate::specs::numbers::Numbers::natural_at))]
pub fn natural(s: &[u8], p: usize) -> Option<u32>
    ensures { result ≡ natural_at s.now p }
{
    if json_text::tokens::byte(s, p) != b'-' {
        return whole_from(s, p);
    }
    let n = whole_from(s, p + 1)?;
    if n == 0 { Some(0) } else { None }
}

#[tactic(auto, unfolding(crate::specs::numbers::Numbers::above_of))]
fn above(s: &[u8], p: usize) -> Option<u32>
    ensures { result ≡ above_of (whole_from s.now p) }
{
    let n = whole_from(s, p)?;
    if n < 2147483648 { Some(n) } else { None }
}

#[tactic(auto, unfolding(crate::specs::numbers::Numbers::below_of, crate::specs::numbers::Numbers::negative, card::specs::fields::Twos::bits32))]
fn below(s: &[u8], p: usize) -> Option<u32>
    ensures { result ≡ below_of (whole_from s.now p) }
{
    let n = whole_from(s, p)?;
    if 2147483648 < n {
        return None;
    }
    Some(n.wrapping_neg())
}

// The signed number of 32 bits that is written at p, by two's complement.
#[tactic(auto, unfolding(crate::specs::numbers::Numbers::coordinate_at))]
pub fn coordinate(s: &[u8], p: usize) -> Option<u32>
    ensures { result ≡ coordinate_at s.now p }
{
    if json_text::tokens::byte(s, p) != b'-' {
        return above(s, p);
    }
    below(s, p + 1)
}
