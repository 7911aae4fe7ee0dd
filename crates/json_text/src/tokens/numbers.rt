// The parts of a number.

ghost use Rattle.std.specs.Prelude.{◌≡◌};
ghost use Rattle.json_text.specs.tokens.Parts.{digits};
ghost use Rattle.json_text.specs.tokens.Numbers.{is_sign, is_e, some_digits, int_at, frac_at, sign_at, exp_at, unsigned_at};

#[tactic(auto, unfolding(crate::specs::tokens::Numbers::is_sign, crate::specs::tokens::Bytes::same))]
fn is_sign(b: u8) -> bool
    ensures { result ≡ is_sign b }
{
    (b == 45) | (b == 43)
}

#[tactic(auto, unfolding(crate::specs::tokens::Numbers::is_e, crate::specs::tokens::Bytes::same))]
fn is_e(b: u8) -> bool
    ensures { result ≡ is_e b }
{
    (b == 101) | (b == 69)
}

fn skip_digits(s: &[u8], at: usize) -> usize
    ensures { result ≡ digits s.now at }
{
    crate::tokens::skip_class(s, at, |b| crate::tokens::is_digit(b))
}

#[tactic(auto, unfolding(crate::specs::tokens::Numbers::some_digits, crate::specs::tokens::Bytes::choose))]
fn some_digits(s: &[u8], at: usize) -> Option<usize>
    ensures { result ≡ some_digits s.now at }
{
    if crate::tokens::is_digit(crate::tokens::byte(s, at)) {
        return Some(skip_digits(s, at));
    }
    None
}

#[tactic(auto, unfolding(crate::specs::tokens::Numbers::int_at, crate::specs::tokens::Bytes::choose, crate::specs::tokens::Bytes::same))]
fn skip_int(s: &[u8], at: usize) -> Option<usize>
    ensures { result ≡ int_at s.now at }
{
    if crate::tokens::byte(s, at) == 48 {
        return Some(at + 1);
    }
    some_digits(s, at)
}

#[tactic(auto, unfolding(crate::specs::tokens::Numbers::frac_at, crate::specs::tokens::Bytes::choose, crate::specs::tokens::Bytes::same))]
fn skip_frac(s: &[u8], at: usize) -> Option<usize>
    ensures { result ≡ frac_at s.now at }
{
    if crate::tokens::byte(s, at) == 46 {
        return some_digits(s, at + 1);
    }
    Some(at)
}

#[tactic(auto, unfolding(crate::specs::tokens::Numbers::sign_at, crate::specs::tokens::Bytes::choose))]
fn skip_sign(s: &[u8], at: usize) -> usize
    ensures { result ≡ sign_at s.now at }
{
    if is_sign(crate::tokens::byte(s, at)) {
        return at + 1;
    }
    at
}

#[tactic(auto, unfolding(crate::specs::tokens::Numbers::exp_at, crate::specs::tokens::Bytes::choose))]
fn skip_exp(s: &[u8], at: usize) -> Option<usize>
    ensures { result ≡ exp_at s.now at }
{
    if is_e(crate::tokens::byte(s, at)) {
        return some_digits(s, skip_sign(s, at + 1));
    }
    Some(at)
}

#[tactic(auto, unfolding(crate::specs::tokens::Numbers::unsigned_at, crate::specs::tokens::Parts::and_then))]
pub fn skip_unsigned(s: &[u8], at: usize) -> Option<usize>
    ensures { result ≡ unsigned_at s.now at }
{
    let j = skip_int(s, at)?;
    let k = skip_frac(s, j)?;
    skip_exp(s, k)
}
