// The parts of the judge: tests of one entry, of one id and of a mesh, and the faults that they tell.

ghost use Rattle.std.specs.Prelude.{◌≡◌, ◌+◌, ◌*◌, ◌<◌, true};
ghost use Rattle.sharding.specs.Specification.{allowed};
ghost use Rattle.shard.specs.index.Tests.{entry_place, first_of};
ghost use Rattle.shard.specs.index.Reading.{Readable};
ghost use Rattle.shard.specs.Faults.{foreign, mesh_tests};

use crate::ShardFault;
use crate::index::Fault;
use crate::manifests::manifest_fault;
use sharding::Sharding;
use sharding::limits::is_mesh;
use sharding::placement::inner::place;

// Test 10 of one id.
pub fn is_foreign(spec: Sharding, shard: u64, m: u64, id: u64) -> bool
    requires { allowed spec ≡ true }
    ensures { result ≡ foreign spec shard m id }
{
    let at = place(spec, id);
    (at.shard != shard) | (at.minishard != m)
}

pub fn fault_at(number: u8, minishard: u64, position: usize) -> ShardFault
    ensures { result ≡ record { number = number; minishard = minishard; position = position } }
{
    ShardFault {
        number,
        minishard,
        position: position as u64,
    }
}

// 7 and 8 point at the minishard's entry in the shard index.
pub fn entry_fault(number: u8, minishard: u64) -> ShardFault
    requires { minishard < 1073741824 }
    ensures { result ≡ record { number = number; minishard = minishard; position = entry_place minishard } }
{
    fault_at(number, minishard, 16 * minishard as usize)
}

// The others at number i of a row, which begins in the data at `row`, behind a shard index of `base` bytes.
pub fn row_fault(number: u8, minishard: u64, base: usize, row: usize, i: usize) -> ShardFault
    requires { base + row + 8 * i < 18446744073709551616 }
    ensures { result ≡ record { number = number; minishard = minishard; position = base + row + 8 * i } }
{
    fault_at(number, minishard, base + row + 8 * i)
}

// The first fault of the manifests that a mesh minishard lists in its n entries at p; a volume has none.
pub fn mesh_fault(spec: Sharding, base: usize, data: &[u8], p: usize, n: usize) -> Fault
    requires { Readable base «data».now p n }
    ensures { result ≡ first_of (base + p) n (mesh_tests spec «data».now p n) }
{
    if is_mesh(spec) {
        return manifest_fault(base, data, p, n);
    }
    Fault {
        number: 0,
        position: 0,
    }
}
