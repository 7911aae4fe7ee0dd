// MurmurHash3_x86_128 of 8 bytes with seed 0, of which the first 8 result bytes are kept.

#![tactic(auto)]

ghost use Rattle.std.specs.Prelude.{◌≡◌, ◌+◌, ◌*◌, ◌^◌, ◌<◌};
ghost use Rattle.endian.specs.Little.{le_at};
ghost use Rattle.murmur3.specs.Murmur.{add32, mul32, rotl32, fmix32, tail1, tail2, finished, murmur_hash};

const SEED: u32 = 0;

const LENGTH: u32 = 8;

const C1: u32 = 0x239b_961b;

const C2: u32 = 0xab0e_9789;

const C3: u32 = 0x38b3_4ae5;

// The one place that multiplies. A product of two factors below 65,536 is a number of 32 bits.
#[tactic(auto, using(crate::proofs::Words::product_fits))]
fn times(a: u32, b: u32) -> u32
    requires a_bound { a < 65536 }
    requires b_bound { b < 65536 }
    ensures { result ≡ a * b }
{
    a * b
}

// By 16-bit halves and no wrapping_mul, as docs/RULES.md S4 asks. The product of the two upper ones lies above the 32 bits that are kept.
#[tactic(auto, using(crate::proofs::Words::product_halves))]
fn product(a: u32, b: u32) -> u32
    ensures { result ≡ mul32 a b }
{
    let low = times(a % 65536, b % 65536);
    let upper_lower = times(a >> 16, b % 65536);
    let lower_upper = times(a % 65536, b >> 16);
    let middle = upper_lower.wrapping_add(lower_upper);
    low.wrapping_add(middle << 16)
}

// The tail's k1, from bytes 0 to 3.
#[tactic(auto, using(crate::proofs::Words::tail1_made))]
fn mix_k1(k: u32) -> u32
    ensures { result ≡ tail1 k }
{
    product(product(k, C1).rotate_left(15), C2)
}

// The tail's k2, from bytes 4 to 7.
#[tactic(auto, using(crate::proofs::Words::tail2_made))]
fn mix_k2(k: u32) -> u32
    ensures { result ≡ tail2 k }
{
    product(product(k, C2).rotate_left(16), C3)
}

#[tactic(auto, using(crate::proofs::Words::mixed_word))]
fn mix(h: u32) -> u32
    ensures { result ≡ fmix32 h }
{
    let a = product(h ^ h >> 16, 0x85eb_ca6b);
    let b = product(a ^ a >> 13, 0xc2b2_ae35);
    b ^ b >> 16
}

fn total(a: u32, b: u32, c: u32, d: u32) -> u32
    ensures { result ≡ add32 (add32 (add32 a b) c) d }
{
    a.wrapping_add(b).wrapping_add(c).wrapping_add(d)
}

fn join(low: u32, high: u32) -> u64
    ensures { result ≡ low + 2 ^ 32 * high }
{
    ((high as u64) << 32) + low as u64
}

// The finalisation. Only the first two words of the result are joined.
#[tactic(auto, using(crate::proofs::Words::finish_made))]
fn finish(h1: u32, h2: u32, h3: u32, h4: u32) -> u64
    ensures { result ≡ le_at 8 (finished (record { h1 = h1; h2 = h2; h3 = h3; h4 = h4 })) 0 }
{
    let all = total(h1, h2, h3, h4);
    let m1 = mix(all);
    let m2 = mix(h2.wrapping_add(all));
    let m3 = mix(h3.wrapping_add(all));
    let m4 = mix(h4.wrapping_add(all));
    let first = total(m1, m2, m3, m4);
    join(first, m2.wrapping_add(first))
}

#[tactic(auto, using(crate::proofs::Words::murmur_words))]
pub fn hash(n: u64) -> u64
    ensures { result ≡ murmur_hash n }
{
    let k1 = mix_k1((n % 4294967296) as u32);
    let k2 = mix_k2((n >> 32) as u32);
    finish(
        SEED ^ k1 ^ LENGTH,
        SEED ^ k2 ^ LENGTH,
        SEED ^ LENGTH,
        SEED ^ LENGTH,
    )
}
