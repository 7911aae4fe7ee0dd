// A map with a bit for each position, in words of 64 bits.
#![tactic(auto)]

pub mod visited;
pub mod window;

ghost use Rattle.std.specs.Prelude.{◌≡◌, ◌+◌, ◌*◌, ◌-◌, ◌^◌, ◌<◌, ◌≤◌, length};
ghost use Rattle.bitmap.specs.Positions.{within, after, misses};
ghost use Rattle.bitmap.specs.Bits.{bit_of, bit_at, Marked};

// ---- setting bits

// The x lowest bits of a word.
fn low_bits(x: usize) -> u64
    requires { x ≤ 64 }
    ensures { result ≡ 2 ^ x - 1 }
{
    if x == 64 {
        return u64::MAX;
    }
    (1u64 << x) - 1
}

// The bits x to y of word k.
fn mark_word(map: &mut [u64], k: usize, x: usize, y: usize)
    requires { (k < length map.old) × (x ≤ y) × (y ≤ 64) }
    ensures { Marked map.old map.new (within (64 * k + x) (64 * k + y)) }
{
    let bits = low_bits(y) - low_bits(x);
    map[k] |= bits;
}

// All bits of the words k to l.
#[tactic(auto, using(crate::proofs::Marks::fill_marked))]
fn fill_words(map: &mut [u64], k: usize, l: usize)
    requires { (k ≤ l) × (l ≤ length map.old) }
    ensures { Marked map.old map.new (within (64 * k) (64 * l)) }
{
    map[k..l].fill(u64::MAX);
}

// The bits a to b.
pub fn mark(map: &mut [u64], a: usize, b: usize)
    requires { (a ≤ b) × (b < 64 * length map.old) }
    ensures { Marked map.old map.new (within a b) }
{
    let first = a / 64;
    let last = b / 64;
    if first == last {
        mark_word(map, first, a % 64, b % 64);
        return;
    }
    mark_word(map, first, a % 64, 64);
    fill_words(map, first + 1, last);
    mark_word(map, last, 0, b % 64);
}

// ---- reading them

pub fn is_marked(map: &[u64], i: usize) -> bool
    requires { i < 64 * length map.now }
    ensures { result ≡ bit_at map.now i }
{
    (map[i / 64] >> (i % 64)) % 2 == 1
}

// How many bits of a word are not set.
fn zeros(word: u64) -> u64
    ensures { (result ≡ misses (bit_of word) 64) × (result ≤ 64) }
{
    u64::from(word.count_zeros())
}

// How many bits of the 64 words from k on are not set.
#[tactic(auto, using(crate::proofs::Marks::open_first, crate::proofs::Marks::open_part, crate::proofs::Marks::open_last, crate::proofs::Marks::open_most))]
pub fn zeros_of(map: &[u64], k: usize) -> u64
    requires { k + 64 ≤ length map.now }
    ensures { (result ≡ misses (after (64 * k) (bit_at map.now)) 4096) × (result ≤ 4096) }
{
    let mut total = 0;
    for word in &map[k..k + 64] {
        total += zeros(*word);
    }
    total
}
