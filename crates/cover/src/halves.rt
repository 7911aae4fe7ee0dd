// A box of cells, and its halves at a key bit.
// A box of cells is given by the keys of its first and its last cell, and an axis by its key bits: a key is then compared along each
// axis as it stands, without its cell. A key bit halves what the higher bits leave of the grid, and the box where it has cells in both.

ghost use Rattle.std.specs.Prelude.{◌≡◌, ◌+◌, ◌-◌, ◌/◌, ◌%◌, ◌^◌, ◌<◌, ◌≤◌, eqb};
ghost use Rattle.cover.specs.halves.Box.{BoxCorners, Beside, Misses, SplitAt, Axes, Owns, last_below, first_above};
ghost use Rattle.cover.specs.halves.Halving.{Halvable, Halved, CutBox};

// A half of what the higher bits leave of the grid: its first key, and whether no key of the box is in it.
#[derive(Clone, Copy)]
pub struct Half {
    pub first: u64,
    pub misses: bool,
}

#[derive(Clone, Copy)]
pub struct Halves {
    pub lower: Half,
    pub upper: Half,
}

// Of a box with cells in both halves, the last key in the lower half and the first one in the upper half.
#[derive(Clone, Copy)]
pub struct Cut {
    pub last: u64,
    pub first: u64,
}

// 2 to the power n: by a shift, since the library's pow is a loop.
#[tactic(auto, using(crate::proofs::halves::Ways::powers))]
fn power(n: u32) -> u64
    requires { n < 64 }
    ensures { (result ≡ 2 ^ n) × (0 < result) × (result ≤ 2 ^ 63) }
{
    1u64 << n
}

// k has bit n.
fn has(k: u64, n: u32) -> bool
    requires { n < 64 }
    ensures { result ≡ eqb (k / 2 ^ n % 2) 1 }
{
    (k >> n) % 2 == 1
}

// No key of the box is in the half with n bits that begins at `first`: the half lies past the box's last key or before its first.
#[tactic(auto, using(crate::proofs::halves::Ways::missing))]
fn misses(first: u64, n: u32, low: u64, high: u64) -> bool
    requires { (n < 64) × (low ≤ high) × (first + 2 ^ n ≤ 2 ^ 64) × Beside low high first n }
    ensures { Misses low high first n result }
{
    if high < first {
        return true;
    }
    first + (power(n) - 1) < low
}

// The two halves at bit n of what begins at `first`, each tested by itself.
#[tactic(auto, using(crate::proofs::halves::Ways::halving))]
pub fn halve(first: u64, n: u32, low: u64, high: u64) -> Halves
    requires { (n < 64) × (low ≤ high) × Halvable low high first n }
    ensures { Halved low high first n result }
{
    let upper = first + power(n);
    let below = misses(first, n, low, high);
    let above = misses(upper, n, low, high);
    Halves {
        lower: Half {
            first,
            misses: below,
        },
        upper: Half {
            first: upper,
            misses: above,
        },
    }
}

// The axis that has bit n.
#[tactic(auto, using(crate::proofs::halves::Ways::bits))]
fn owner(x: u64, y: u64, z: u64, n: u32) -> u64
    requires { Axes x y z n × (n < 64) }
    ensures { Owns x y z n result }
{
    if has(z, n) {
        return z;
    }
    if has(y, n) {
        return y;
    }
    x
}

// The last key of the box in the lower half: the bit's axis goes on to the half's end there.
#[tactic(auto, using(crate::proofs::halves::Ways::corner))]
fn last_below(own: u64, high: u64, n: u32) -> u64
    requires { (n < 64) × (2 ^ n ≤ high) }
    ensures { result ≡ last_below own high n }
{
    let top = power(n);
    (high - top) | (own & (top - 1))
}

// The first key of the box in the upper half: the bit's axis begins anew there.
#[tactic(auto, using(crate::proofs::halves::Ways::corner))]
fn first_above(own: u64, low: u64, n: u32) -> u64
    requires { (n < 64) × (first_above own low n < 2 ^ 64) }
    ensures { result ≡ first_above own low n }
{
    let top = power(n);
    low - (low & (own & (top - 1))) + top
}

// The box in two, where it has cells in both halves at bit n.
#[tactic(auto, using(crate::proofs::halves::Ways::cutting))]
pub fn cut_box(x: u64, y: u64, z: u64, low: u64, high: u64, n: u32) -> Cut
    requires { (n < 64) × BoxCorners x y z low high × SplitAt low high n }
    ensures { CutBox x y z low high n result }
{
    let own = owner(x, y, z, n);
    Cut {
        last: last_below(own, high, n),
        first: first_above(own, low, n),
    }
}

// The keys from low to high are all that bits 0 to n can make.
#[tactic(auto, using(crate::proofs::halves::Ways::corner))]
pub fn full(low: u64, high: u64, n: u32) -> bool
    requires { (n < 64) × (low ≤ high) }
    ensures { result ≡ eqb (high - low) (2 ^ n + (2 ^ n - 1)) }
{
    let top = power(n);
    high - low == top + (top - 1)
}
