// The measures of a shard as one file, and the leads of its chunks.

ghost use Rattle.std.specs.Prelude.{◌≡◌, ◌+◌, ◌≤◌, true, length, take, drop};
ghost use Rattle.sharding.specs.Specification.{allowed};
ghost use Rattle.shard.specs.File.{index_length_of};
ghost use Rattle.shard.specs.Items.{lead_length_of, Led, MayLead};

use mesh_manifest::nodes::inner::fragments_length;
use sharding::Sharding;
use sharding::limits::{is_mesh, minishard_count};

// The longest shard.
pub const MOST_SHARD_BYTES: usize = 1073741824;

pub fn index_length(spec: Sharding) -> usize
    requires { allowed spec ≡ true }
    ensures { (result ≡ index_length_of spec) × (result ≤ 1048576) }
{
    16 * minishard_count(spec) as usize
}

// ---- leads

// Whether any chunk may have one: those of a mesh.
pub fn has_leads(spec: Sharding) -> bool
    ensures { MayLead spec result }
{
    is_mesh(spec)
}

// How long the lead of the chunk of `size` bytes at `start` is.
pub fn lead_length(spec: Sharding, data: &[u8], start: usize, size: usize) -> usize
    requires { (start + size ≤ length «data».now) × Led spec «data».now start size }
    ensures { result ≡ lead_length_of spec (take size (drop start «data».now)) }
{
    if !is_mesh(spec) {
        return 0;
    }
    fragments_length(&data[start..start + size]) as usize
}
