// Places that were looked at, in a map.

ghost use Rattle.std.specs.Prelude.{◌≡◌, ◌+◌, ◌*◌, ◌<◌, ◌^◌, length};
ghost use Rattle.bitmap.specs.Positions.{within};
ghost use Rattle.bitmap.specs.Bits.{bit_at, Marked};
ghost use Rattle.bitmap.specs.visited.Seen.{Sees, Blank};

use crate::is_marked;

pub const MAP_WORDS: usize = 4096;

// Whether place o is noted: none past the map is.
pub fn is_seen(map: &[u64], o: u64) -> bool
    requires { o < 2 ^ 32 }
    ensures { result ≡ bit_at map.now o }
{
    let i = o as usize;
    i / 64 < map.len() && is_marked(map, i)
}

// One bit by one shift: mark_word would take two and a test.
fn set_bit(map: &mut [u64], k: usize, x: usize)
    requires { (k < length map.old) × (x < 64) }
    ensures { Marked map.old map.new (within (64 * k + x) (64 * k + (x + 1))) }
{
    map[k] |= 1u64 << x;
}

// A place past the map is not noted.
pub fn see(map: &mut [u64], o: u64)
    requires { o < 2 ^ 32 }
    ensures { Sees map.old map.new o }
{
    let i = o as usize;
    if i / 64 < map.len() {
        set_bit(map, i / 64, i % 64);
    }
}

#[tactic(auto, using(crate::proofs::visited::Noted::blank_filled))]
pub fn clear(map: &mut [u64])
    ensures { Blank map.new }
{
    map.fill(0);
}
