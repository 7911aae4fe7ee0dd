// A window of positions, in which a range is noted in constant time.

ghost use Rattle.std.specs.Prelude.{◌≡◌, ◌*◌, ◌<◌, ◌≤◌, length};
ghost use Rattle.bitmap.specs.Positions.{within, after, misses};
ghost use Rattle.bitmap.specs.window.Window.{span, window_words, noted, Notes};

use crate::{is_marked, mark, zeros_of};

// The positions of a window, and the words of its map: 508 KiB.
pub const SPAN: usize = 4161536;

pub const WINDOW_WORDS: usize = 65040;

// The positions a to b.
pub fn note(map: &mut [u64], a: usize, b: usize)
    requires { (length map.old ≡ window_words) × (a ≤ b) × (b ≤ span) }
    ensures { Notes map.old map.new (within a b) }
{
    let first = a.div_ceil(4096);
    let last = b / 4096;
    if last <= first {
        mark(map, a, b);
        return;
    }
    mark(map, SPAN + first, SPAN + last);
    mark(map, a, 4096 * first);
    mark(map, 4096 * last, b);
}

// How many positions of group g are not noted.
fn open_in(map: &[u64], g: usize) -> u64
    requires { (length map.now ≡ window_words) × (g < 1016) }
    ensures { (result ≡ misses (after (4096 * g) (noted map.now)) 4096) × (result ≤ 4096) }
{
    if is_marked(map, SPAN + g) {
        return 0;
    }
    zeros_of(map, 64 * g)
}

// How many positions are not noted.
#[tactic(auto, using(crate::proofs::window::Windows::tally_first, crate::proofs::window::Windows::tally_next, crate::proofs::window::Windows::tally_last))]
fn open_count(map: &[u64]) -> u64
    requires { length map.now ≡ window_words }
    ensures { result ≡ misses (noted map.now) span }
{
    let mut total = 0;
    for g in 0..1016 {
        total += open_in(map, g);
    }
    total
}

// How many of the positions below n are not noted; those from n on are then noted too.
pub fn open_below(map: &mut [u64], n: usize) -> u64
    requires { (length map.old ≡ window_words) × (n ≤ span) }
    ensures { (result ≡ misses (noted map.old) n) × Notes map.old map.new (within n span) }
{
    note(map, n, SPAN);
    open_count(map)
}
