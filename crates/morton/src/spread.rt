// Bits spread to every third place, by a table of spread bytes.
pub mod table;

ghost use Rattle.std.specs.Prelude.{◌≡◌, ◌%◌, ◌^◌, ◌<◌, ◌≤◌};
ghost use Rattle.morton.specs.spread.Spread.{spread, Spreads};

// The lowest n bits of v.
pub fn low_bits(v: u64, n: u32) -> u64
    requires { n ≤ 32 }
    ensures { (result ≡ v % 2 ^ n) × (result < 2 ^ n) }
{
    v & ((1u64 << n) - 1)
}

// A byte's bits, each three places after the last.
fn spread_byte(table: &[u32], b: u64) -> u64
    requires { Spreads table.now × (b < 256) }
    ensures { (result ≡ spread 8 b) × (result < 16777216) }
{
    let i = b as usize;
    u64::from(table[i])
}

// The same of the lowest n bits of v, a byte at a time.
pub fn spread_bits(table: &[u32], v: u32, n: u32) -> u64
    requires { Spreads table.now × (n ≤ 21) }
    ensures { (result ≡ spread n v) × (result < 2 ^ 61) }
{
    let w = low_bits(v as u64, n);
    let a = spread_byte(table, w % 256);
    if n <= 8 {
        return a;
    }
    let b = a + 16777216 * spread_byte(table, w / 256 % 256);
    if n <= 16 {
        return b;
    }
    b + 281474976710656 * spread_byte(table, w / 65536 % 256)
}
