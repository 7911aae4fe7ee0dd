// The lookup in a shard of two parts: the id's minishard is judged, then searched.

ghost use Rattle.std.specs.Prelude.{◌≡◌, ◌≤◌, true, length};
ghost use Rattle.sharding.specs.Specification.{allowed};
ghost use Rattle.shard.specs.index.Index.{most_shard_bytes};
ghost use Rattle.shard.specs.File.{index_length_of};
ghost use Rattle.lookup.specs.chosen_minishard.Chosen.{lookup_in};

use crate::id_search::{LookupAnswer, find};
use shard::index::{entry_end, entry_start};
use shard::judge::judge;
use sharding::Sharding;
use sharding::placement::inner::minishard_of;

// A lookup in a shard of two parts: the chosen minishard is judged, then searched. The place counts from the beginning of the
// shard index, as in one file.
pub fn lookup_in(spec: Sharding, shard: u64, index: &[u8], data: &[u8], id: u64) -> LookupAnswer
    requires spec_value { allowed spec ≡ true }
    requires index_len { (length index.now ≡ index_length_of spec) × (length «data».now ≤ most_shard_bytes) }
    ensures { result ≡ lookup_in spec shard index.now «data».now id }
{
    let m = minishard_of(spec, id);
    let fault = judge(spec, shard, index, data, m);
    if fault.number != 0 {
        return LookupAnswer::Faulty {
            number: fault.number,
            position: fault.position,
        };
    }
    let s = entry_start(index, m);
    let e = entry_end(index, m);
    if s == e {
        return LookupAnswer::Refused(12);
    }
    let n = ((e - s) / 24) as usize;
    find(index.len(), data, s as usize, n, id)
}
