// The length of one minishard of a settled form, up to the first length that is refused.

ghost use Rattle.std.specs.Prelude.{◌≡◌, ◌+◌, ◌*◌, ◌≤◌, length};
ghost use Rattle.endian.specs.Range.{sum_to};
ghost use Rattle.shard.specs.index.Index.{sizes, most_shard_bytes};
ghost use Rattle.shard.specs.Items.{leads};
ghost use Rattle.settle.specs.minishard_length.Writing.{ReadableIndex, LeadsIn, minishard_length, capped};

use endian::read_u64;
use shard::lengths::{MOST_SHARD_BYTES, has_leads, lead_length};
use sharding::Sharding;

// The first length that is refused.
const TOO_LONG: usize = MOST_SHARD_BYTES + 1;

// The sum, up to the first length that is refused.
pub fn add_capped(a: usize, b: usize) -> usize
    requires { a ≤ most_shard_bytes + 1 }
    ensures { result ≡ capped (a + b) }
{
    a.saturating_add(b).min(TOO_LONG)
}

// The sizes of the n chunks together.
fn sizes_length(data: &[u8], s: usize, n: usize) -> usize
    requires { s + 24 * n ≤ length «data».now }
    ensures { result ≡ capped (sum_to (sizes «data».now s n) n) }
{
    let sizes = s + 16 * n;
    let mut sum = 0;
    for i in 0..n {
        sum = add_capped(sum, read_u64(data, sizes + 8 * i) as usize);
    }
    sum
}

// Their leads together.
fn leads_length(spec: Sharding, data: &[u8], s: usize, n: usize) -> usize
    requires { ReadableIndex «data».now s n × LeadsIn spec «data».now s n }
    ensures { result ≡ capped (sum_to (leads spec «data».now s n) n) }
{
    let starts = s + 8 * n;
    let sizes = s + 16 * n;
    let mut sum = 0;
    let mut from: u64 = 0;
    for i in 0..n {
        let start = from.wrapping_add(read_u64(data, starts + 8 * i));
        let size = read_u64(data, sizes + 8 * i);
        let lead = lead_length(spec, data, start as usize, size as usize);
        sum = add_capped(sum, lead);
        from = start + size;
    }
    sum
}

// The length of the settled minishard. Leads are read only where there may be any.
#[tactic(auto, using(crate::proofs::minishard_length::Lengths::totalling))]
pub fn part_length(spec: Sharding, data: &[u8], s: usize, n: usize) -> usize
    requires { ReadableIndex «data».now s n × LeadsIn spec «data».now s n }
    ensures { result ≡ capped (minishard_length spec «data».now s n) }
{
    let listed = add_capped(sizes_length(data, s, n), 24 * n);
    if has_leads(spec) {
        return add_capped(listed, leads_length(spec, data, s, n));
    }
    listed
}
