// Whether a minishard may be written as it stands.

ghost use Rattle.shard.specs.index.Index.{id_steps};
ghost use Rattle.settle.specs.minishard_length.Writing.{ReadableIndex, MayStand, Climbs};

use endian::read_u64;
use shard::lengths::has_leads;
use sharding::Sharding;

// Whether each id is above the one before.
fn ids_rise(data: &[u8], s: usize, n: usize) -> bool
    requires { ReadableIndex «data».now s n }
    ensures { Climbs (id_steps «data».now s) n result }
{
    let mut id = read_u64(data, s);
    for i in 1..n {
        let next = id.wrapping_add(read_u64(data, s + 8 * i));
        if next <= id {
            return false;
        }
        id = next;
    }
    true
}

// Nor may any chunk have a lead.
pub fn may_stand(spec: Sharding, data: &[u8], s: usize, n: usize) -> bool
    requires { ReadableIndex «data».now s n }
    ensures { MayStand spec «data».now s n result }
{
    if has_leads(spec) {
        return false;
    }
    ids_rise(data, s, n)
}
