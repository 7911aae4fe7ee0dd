// Tests 16 and 17 of a manifest: its reals, the order of its nodes.

ghost use Rattle.std.specs.Prelude.{◌≡◌, ◌+◌, ◌*◌, ◌≤◌, ◌<◌, length};
ghost use Rattle.endian.specs.Range.{every};
ghost use Rattle.mesh_manifest.specs.layout.Layout.{levels_of, field_count};
ghost use Rattle.mesh_manifest.specs.sound.Verdict.{real_fits, reals_fit, in_order_of, level_rises, nodes_rise};

use crate::layout::{above_zero, count, finite_bits, item};
use crate::sound::is_real;

#[tactic(auto, using(crate::proofs::sound::Ways::ways))]
fn real_fits(s: &[u8], levels: usize, i: usize) -> bool
    requires { (levels ≡ levels_of s.now) × (levels ≤ 32) × (4 * i + 4 ≤ length s.now) }
    ensures { result ≡ real_fits s.now i }
{
    if is_real(levels, i) {
        return finite_bits(item(s, i));
    }
    true
}

#[tactic(auto, using(crate::proofs::layout::Loops::loops))]
fn each_real_fits(s: &[u8], levels: usize) -> bool
    requires { (levels ≡ levels_of s.now) × (levels ≤ 32) × (28 + 20 * levels ≤ length s.now) }
    ensures { result ≡ every (real_fits s.now) (7 + 4 * levels) }
{
    for i in 0..7 + 4 * levels {
        if !real_fits(s, levels, i) {
            return false;
        }
    }
    true
}

// Refusal 16 does not hold.
#[tactic(auto, using(crate::proofs::sound::Ways::ways))]
pub fn reals_fit(s: &[u8], levels: usize) -> bool
    requires { (levels ≡ levels_of s.now) × (levels ≤ 32) × (28 + 20 * levels ≤ length s.now) }
    ensures { result ≡ reals_fit s.now }
{
    if !each_real_fits(s, levels) {
        return false;
    }
    if !above_zero(item(s, 0)) {
        return false;
    }
    if !above_zero(item(s, 1)) {
        return false;
    }
    above_zero(item(s, 2))
}

// Of a level with n nodes whose items begin at first: whether node i stands before the next.
fn in_order(s: &[u8], first: usize, n: usize, i: usize) -> bool
    requires { (4 * (first + 4 * n) ≤ length s.now) × (i + 1 < n) }
    ensures { result ≡ in_order_of s.now first n i }
{
    let ax = item(s, first + i);
    let ay = item(s, first + n + i);
    let az = item(s, first + 2 * n + i);
    let bx = item(s, first + (i + 1));
    let by = item(s, first + n + (i + 1));
    let bz = item(s, first + 2 * n + (i + 1));
    crate::zorder::before(ax, ay, az, bx, by, bz)
}

// Not inlined: within the judge of a shard this loop, the longest over a manifest, would lack registers.
#[inline(never)]
#[tactic(auto, using(crate::proofs::layout::Loops::loops), unfolding(crate::specs::sound::Verdict::level_rises))]
fn level_rises(s: &[u8], first: usize, n: usize) -> bool
    requires { 4 * (first + 4 * n) ≤ length s.now }
    ensures { result ≡ level_rises s.now first n }
{
    for i in 0..n.saturating_sub(1) {
        if !in_order(s, first, n, i) {
            return false;
        }
    }
    true
}

// Refusal 17 does not hold.
#[tactic(auto, using(crate::proofs::layout::Loops::loops))]
pub fn nodes_rise(s: &[u8], levels: usize) -> bool
    requires { (levels ≡ levels_of s.now) × (levels ≤ 32) × (length s.now ≡ 4 * field_count s.now) }
    ensures { result ≡ nodes_rise s.now }
{
    let mut first = 7 + 5 * levels;
    for l in 0..levels {
        let n = count(s, levels, l);
        if !level_rises(s, first, n) {
            return false;
        }
        first += 4 * n;
    }
    true
}
