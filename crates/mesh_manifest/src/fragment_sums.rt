// Sums of the sizes of a manifest's fragments.

ghost use Rattle.std.specs.Prelude.{◌≡◌, ◌+◌, ◌*◌, ◌≤◌, length};
ghost use Rattle.endian.specs.Range.{sum_to};
ghost use Rattle.mesh_manifest.specs.layout.Layout.{levels_of, field_count, size_at};
ghost use Rattle.mesh_manifest.specs.fragment_sums.Sums.{level_bytes};

use crate::layout::{count, item};

// The sizes of the first `to` fragments of a level, together.
#[tactic(auto, using(crate::proofs::layout::Loops::loops), unfolding(crate::specs::layout::Layout::size_at))]
pub fn sizes(s: &[u8], first: usize, n: usize, to: usize) -> u64
    requires { (4 * (first + 4 * n) ≤ length s.now) × (length s.now ≤ 16777216) × (to ≤ n) }
    ensures { (result ≡ sum_to (size_at s.now first n) to) × (result ≤ 4294967295 * to) × (result ≤ 4503599627370496) }
{
    let mut total: u64 = 0;
    for i in 0..to {
        total += item(s, first + 3 * n + i) as u64;
    }
    total
}

// The sizes of all fragments of the levels before `level`, together.
#[tactic(auto, using(crate::proofs::layout::Loops::loops))]
pub fn bytes_before(s: &[u8], levels: usize, level: usize) -> u64
    requires { (levels ≡ levels_of s.now) × (levels ≤ 32) × (level ≤ levels) × (length s.now ≡ 4 * field_count s.now) × (length s.now ≤ 16777216) }
    ensures { (result ≡ sum_to (level_bytes s.now) level) × (result ≤ 18014398509481984) }
{
    let mut total: u64 = 0;
    let mut first = 7 + 5 * levels;
    for l in 0..level {
        let n = count(s, levels, l);
        total += sizes(s, first, n, n);
        first += 4 * n;
    }
    total
}
