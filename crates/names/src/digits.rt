// Numbers as text: digits in a base of at most 16, decimal numbers with their sign.

ghost use Rattle.std.specs.Prelude.{◌≡◌, ◌+◌, ◌<◌, ◌≤◌, length};
ghost use Rattle.endian.specs.Place.{paste};
ghost use Rattle.names.specs.digits.Digits.{digit_byte, digits, decimal};
ghost use Rattle.names.specs.digits.Signs.{sign_parts, signed_text};

use endian;

// A number as its text has it.
#[derive(Clone, Copy)]
pub struct Signed {
    pub negative: bool,
    pub magnitude: u64,
}

#[tactic(auto, using(crate::proofs::digits::Numerals::digit_low, crate::proofs::digits::Numerals::digit_high))]
fn digit(d: u64) -> u8
    requires { d < 16 }
    ensures { result ≡ digit_byte d }
{
    if d < 10 {
        (48 + d) as u8
    } else {
        (87 + d) as u8
    }
}

// The count lowest digits of v, from the last one forward.
#[tactic(auto, using(crate::proofs::digits::Numerals::rem_small, crate::proofs::digits::Numerals::digits_next, crate::proofs::digits::Numerals::digits_done))]
pub fn put_digits(out: &mut [u8], at: usize, base: u64, count: usize, v: u64)
    requires { (0 < base) × (base ≤ 16) × (at + count ≤ length out.old) }
    ensures { out.new ≡ paste at (digits base count v) out.old }
{
    let mut w = v;
    for i in (at..at + count).rev() {
        out[i] = digit(w % base);
        w /= base;
    }
}

#[tactic(auto, using(crate::proofs::digits::Numerals::decimal_count, crate::proofs::digits::Numerals::decimal_zero, crate::proofs::digits::Numerals::decimal_twenty))]
fn decimal_len(v: u64) -> usize
    ensures { (result ≡ length (decimal v)) × (result ≤ 20) }
{
    if v == 0 { 1 } else { v.ilog10() as usize + 1 }
}

// Each writer of text answers the place after it.
pub fn put_decimal(out: &mut [u8], at: usize, v: u64) -> usize
    requires { at + length (decimal v) ≤ length out.old }
    ensures value { result ≡ at + length (decimal v) }
    ensures out_after { out.new ≡ paste at (decimal v) out.old }
{
    let n = decimal_len(v);
    put_digits(out, at, 10, n, v);
    at + n
}

pub fn signed_of(z: i64) -> Signed
    ensures { result ≡ sign_parts z }
{
    Signed {
        negative: z.is_negative(),
        magnitude: z.unsigned_abs(),
    }
}

#[tactic(auto, using(crate::proofs::digits::Signing::signing))]
pub fn signed_len(n: Signed) -> usize
    ensures { (result ≡ length (signed_text n)) × (result ≤ 21) }
{
    let k = decimal_len(n.magnitude);
    if n.negative { k + 1 } else { k }
}

#[tactic(auto, using(crate::proofs::digits::Signing::signing))]
pub fn put_signed(out: &mut [u8], at: usize, n: Signed) -> usize
    requires { at + length (signed_text n) ≤ length out.old }
    ensures value { result ≡ at + length (signed_text n) }
    ensures out_after { out.new ≡ paste at (signed_text n) out.old }
{
    if n.negative {
        endian::put_byte(out, at, b'-');
        return put_decimal(out, at + 1, n.magnitude);
    }
    put_decimal(out, at, n.magnitude)
}
