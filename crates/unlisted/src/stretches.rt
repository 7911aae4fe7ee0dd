// The items of a sound minishard: where each begins, and whether they stand in one run.

ghost use Rattle.std.specs.Prelude.{◌≡◌, ◌+◌, ◌-◌, ◌*◌, ◌<◌, ◌≤◌, false, length, take, drop};
ghost use Rattle.shard.specs.index.Index.{start_steps, sizes};
ghost use Rattle.shard.specs.Items.{lead_length_of, Led};
ghost use Rattle.unlisted.specs.ranges.Covered.{in_items};
ghost use Rattle.unlisted.specs.stretches.Reading.{Ranged};
ghost use Rattle.unlisted.specs.stretches.Stretches.{Joined, Summed, Stretched, TellsRun};

use endian::read_u64;
use shard::lengths::{has_leads, lead_length};
use sharding::Sharding;

// The item whose chunk has `size` bytes from `start` on. Its lead is read only where there may be one.
pub fn item_start(spec: Sharding, data: &[u8], start: usize, size: usize) -> usize
    requires { (start + size ≤ length «data».now) × Led spec «data».now start size }
    ensures { result ≡ start - lead_length_of spec (take size (drop start «data».now)) }
{
    if !has_leads(spec) {
        return start;
    }
    let lead = lead_length(spec, data, start, size);
    start - lead
}

// ---- one run

fn joined(a: u64, b: u64) -> u64
    ensures { Joined a b result }
{
    a | b
}

// The start steps of the first k chunks but the first, joined by or, and their sizes together, modulo 2^64.
#[derive(Clone, Copy)]
struct Sums {
    steps: u64,
    sizes: u64,
}

fn sums_of(data: &[u8], s: usize, n: usize, k: usize) -> Sums
    requires { (s + 24 * n ≤ length «data».now) × (k ≤ n) × (0 < k) }
    ensures { Summed (start_steps «data».now s n) (sizes «data».now s n) k result }
{
    let starts = s + 8 * n;
    let sizes = s + 16 * n;
    let mut steps: u64 = 0;
    let mut sum = read_u64(data, sizes);
    for i in 1..k {
        steps = joined(steps, read_u64(data, starts + 8 * i));
        sum = sum.wrapping_add(read_u64(data, sizes + 8 * i));
    }
    Sums { steps, sizes: sum }
}

// Whether the first k items are known to hold the bytes of one range, and where it begins and ends; else both numbers tell nothing.
#[derive(Clone, Copy)]
pub struct Stretch {
    pub whole: bool,
    pub from: usize,
    pub to: usize,
}

fn no_stretch() -> Stretch
    ensures { result.whole ≡ false }
{
    Stretch {
        whole: false,
        from: 0,
        to: 0,
    }
}

// They are where no chunk has a lead and each begins where the one before it ends.
pub fn stretch_of(spec: Sharding, data: &[u8], s: usize, n: usize, k: usize) -> Stretch
    requires { Ranged spec «data».now s n × (k ≤ n) }
    ensures { Stretched (in_items spec «data».now s n k) result × TellsRun spec (start_steps «data».now s n) k result.whole }
{
    if has_leads(spec) {
        return no_stretch();
    }
    if k == 0 {
        return no_stretch();
    }
    let sums = sums_of(data, s, n, k);
    let from = read_u64(data, s + 8 * n);
    let to = from.wrapping_add(sums.sizes);
    Stretch {
        whole: sums.steps == 0,
        from: from as usize,
        to: to as usize,
    }
}
