// One axis of a grid: which bits of its coordinates a key has.

ghost use Rattle.std.specs.Prelude.{◌≡◌, ◌*◌, ◌%◌, ◌^◌, ◌<◌};
ghost use Rattle.morton.specs.axis.Axis.{bit_of, used, put, low, rest, AxisBits};

// Turn i uses an axis of size g.
pub fn uses(g: u32, i: u32) -> bool
    requires { i < 32 }
    ensures { result ≡ used g i }
{
    (1u32 << i) < g
}

// The key k with bit i of the coordinate v below it, where turn i uses the axis. A key that
// would have more than 64 bits loses the highest.
pub fn put_bit(g: u32, v: u32, i: u32, k: u64) -> u64
    requires { i < 32 }
    ensures { result ≡ put (used g i) (bit_of v i) k % 2 ^ 64 }
{
    if uses(g, i) {
        (k << 1) + u64::from((v >> i) % 2)
    } else {
        k
    }
}

// The lowest bit of the key k at bit i of a coordinate, where turn i uses the axis.
pub fn low_bit(g: u32, i: u32, k: u64) -> u32
    requires { i < 32 }
    ensures { result ≡ low (used g i) k * 2 ^ i }
{
    if uses(g, i) { ((k % 2) as u32) << i } else { 0 }
}

// The key k without that bit.
pub fn rest_key(g: u32, i: u32, k: u64) -> u64
    requires { i < 32 }
    ensures { result ≡ rest (used g i) k }
{
    if uses(g, i) { k / 2 } else { k }
}

// How many turns use an axis of size g: the length in bits of its last coordinate.
pub fn axis_bits(g: u32) -> u32
    ensures { AxisBits g result }
{
    if g == 0 {
        return 0;
    }
    32 - (g - 1).leading_zeros()
}
