// The judge: tests 7 to 11, for a mesh also 15 to 17 and 21, of minishards in number order, up to the first fault.

ghost use Rattle.std.specs.Prelude.{◌≡◌, ◌-◌, ◌<◌, ◌≤◌, true, length};
ghost use Rattle.sharding.specs.Specification.{allowed, minishard_count_of};
ghost use Rattle.shard.specs.index.Index.{most_shard_bytes};
ghost use Rattle.shard.specs.Faults.{fault_of, first_fault};
ghost use Rattle.shard.specs.File.{index_length_of};

use crate::ShardFault;
use crate::faults::{entry_fault, fault_at, is_foreign, mesh_fault, row_fault};
use crate::index::{Fault, entry_end, entry_start};
use duplicate_ids::first_twice;
use endian::read_u64;
use sharding::Sharding;

// Of the minishards from `from` up to `to`, end excluded, the first with a fault. A minishard's tests 9, 10 and 11 run over
// all its entries one after the other: `first_twice`, then 'places and 'ends, whose sums wrap; those of a mesh follow. The first fault
// leaves all loops.
pub fn first_fault(
    spec: Sharding,
    shard: u64,
    index: &[u8],
    data: &[u8],
    from: u64,
    to: u64,
) -> ShardFault
    requires spec_value { allowed spec ≡ true }
    requires index_len { (length index.now ≡ index_length_of spec) × (length «data».now ≤ most_shard_bytes) × (to ≤ minishard_count_of spec) }
    ensures { result ≡ first_fault (fault_of spec shard index.now «data».now) from (to - from) }
{
    let base = index.len();
    let len = data.len() as u64;
    let mut found = fault_at(0, 0, 0);
    'minishards: for m in from..to {
        let s = entry_start(index, m);
        let e = entry_end(index, m);
        if e < s {
            found = entry_fault(7, m);
            break 'minishards;
        }
        if s < e {
            if len < e {
                found = entry_fault(7, m);
                break 'minishards;
            }
            if (e - s) % 24 != 0 {
                found = entry_fault(8, m);
                break 'minishards;
            }
            let p = s as usize;
            let n = ((e - s) / 24) as usize;
            let again = first_twice(data, p, n);
            if again < n {
                found = row_fault(9, m, base, p, again);
                break 'minishards;
            }
            let mut own: u64 = 0;
            'places: for j in 0..n {
                own = own.wrapping_add(read_u64(data, p + 8 * j));
                if is_foreign(spec, shard, m, own) {
                    found = row_fault(10, m, base, p, j);
                    break 'minishards;
                }
            }
            let q = p + 8 * n;
            let t = p + 16 * n;
            let mut end: u64 = 0;
            'ends: for k in 0..n {
                let start = end.wrapping_add(read_u64(data, q + 8 * k));
                let size = read_u64(data, t + 8 * k);
                if len < start {
                    found = row_fault(11, m, base, q, k);
                    break 'minishards;
                }
                if len - start < size {
                    found = row_fault(11, m, base, q, k);
                    break 'minishards;
                }
                end = start + size;
            }
            let bad = mesh_fault(spec, base, data, p, n);
            if bad.number != 0 {
                found = ShardFault {
                    number: bad.number,
                    minishard: m,
                    position: bad.position,
                };
                break 'minishards;
            }
        }
    }
    found
}

// The fault of one minishard.
pub fn judge(spec: Sharding, shard: u64, index: &[u8], data: &[u8], m: u64) -> Fault
    requires spec_value { allowed spec ≡ true }
    requires index_len { (length index.now ≡ index_length_of spec) × (length «data».now ≤ most_shard_bytes) }
    requires m_bound { m < minishard_count_of spec }
    ensures { result ≡ fault_of spec shard index.now «data».now m }
{
    let found = first_fault(spec, shard, index, data, m, m + 1);
    Fault {
        number: found.number,
        position: found.position,
    }
}
