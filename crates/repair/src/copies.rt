// Repair over two copies whose lengths were tested.

ghost use Rattle.std.specs.Prelude.{◌≡◌, ◌<◌, ◌≤◌, true, false, length};
ghost use Rattle.sharding.specs.Specification.{allowed, minishard_count_of};
ghost use Rattle.shard.specs.Faults.{first_fault};
ghost use Rattle.shard.specs.File.{index_part, data_part, bad_file_length};
ghost use Rattle.repair.specs.form.Choosing.{Pair};
ghost use Rattle.repair.specs.Trouble.{trouble_of, first_trouble};
ghost use Rattle.repair.specs.Repair.{repair_in, left_in};

use crate::RepairAnswer;
use crate::form::{is_sound, repaired_length, write_repaired};
use crate::same_listing::lists_alike;
use shard::ShardFault;
use shard::index::Fault;
use shard::judge::judge;
use shard::lengths::{MOST_SHARD_BYTES, index_length};
use sharding::Sharding;
use sharding::limits::minishard_count;

// ---- what cannot be taken

// Why minishard m cannot be taken, or number 0.
fn trouble_of(
    spec: Sharding,
    shard: u64,
    ia: &[u8],
    da: &[u8],
    ib: &[u8],
    db: &[u8],
    m: u64,
) -> Fault
    requires { Pair spec ia.now da.now ib.now db.now × (m < minishard_count_of spec) }
    ensures { result ≡ trouble_of spec shard ia.now da.now ib.now db.now m }
{
    let fault = judge(spec, shard, ia, da, m);
    let other = is_sound(spec, shard, ib, db, m as usize);
    if fault.number != 0 {
        if other {
            return Fault {
                number: 0,
                position: 0,
            };
        }
        return fault;
    }
    if !other {
        return Fault {
            number: 0,
            position: 0,
        };
    }
    if lists_alike(spec, ia, da, ib, db, m as usize) {
        return Fault {
            number: 0,
            position: 0,
        };
    }
    Fault {
        number: 32,
        position: 16 * m,
    }
}

// The first minishard that cannot be taken, of n.
fn first_trouble(
    spec: Sharding,
    shard: u64,
    ia: &[u8],
    da: &[u8],
    ib: &[u8],
    db: &[u8],
    n: u64,
) -> ShardFault
    requires { Pair spec ia.now da.now ib.now db.now × (n ≤ minishard_count_of spec) }
    ensures { result ≡ first_fault (trouble_of spec shard ia.now da.now ib.now db.now) 0 n }
{
    for m in 0..n {
        let fault = trouble_of(spec, shard, ia, da, ib, db, m);
        if fault.number != 0 {
            return ShardFault {
                number: fault.number,
                minishard: m,
                position: fault.position,
            };
        }
    }
    ShardFault {
        number: 0,
        minishard: 0,
        position: 0,
    }
}

// ---- the answer

// Over two copies of two parts each.
fn repair_parts(
    spec: Sharding,
    shard: u64,
    ia: &[u8],
    da: &[u8],
    ib: &[u8],
    db: &[u8],
    out: &mut [u8],
) -> RepairAnswer
    requires { Pair spec ia.now da.now ib.now db.now }
    ensures value { result ≡ repair_in spec shard ia.now da.now ib.now db.now out.old }
    ensures out_after { out.new ≡ left_in spec shard ia.now da.now ib.now db.now out.old }
{
    let n = minishard_count(spec);
    let found = first_trouble(spec, shard, ia, da, ib, db, n);
    if found.number != 0 {
        return RepairAnswer::Faulty {
            number: found.number,
            minishard: found.minishard,
            position: found.position,
        };
    }
    let len = repaired_length(spec, shard, ia, da, ib, db);
    if MOST_SHARD_BYTES < len {
        return RepairAnswer::Refused(13);
    }
    if out.len() < len {
        return RepairAnswer::Refused(13);
    }
    let written = write_repaired(spec, shard, ia, da, ib, db, out);
    RepairAnswer::Length(written)
}

// Over two files that 6 does not refuse.
pub fn repair_files(spec: Sharding, shard: u64, a: &[u8], b: &[u8], out: &mut [u8]) -> RepairAnswer
    requires spec_value { allowed spec ≡ true }
    requires a_value { (bad_file_length spec (length a.now) ≡ false) × (bad_file_length spec (length b.now) ≡ false) }
    ensures value { result ≡ repair_in spec shard (index_part spec a.now) (data_part spec a.now) (index_part spec b.now) (data_part spec b.now) out.old }
    ensures out_after { out.new ≡ left_in spec shard (index_part spec a.now) (data_part spec a.now) (index_part spec b.now) (data_part spec b.now) out.old }
{
    let n = index_length(spec);
    repair_parts(spec, shard, &a[..n], &a[n..], &b[..n], &b[n..], out)
}

// Whether 6 refuses a file of this length.
pub fn is_bad(spec: Sharding, len: usize) -> bool
    requires { allowed spec ≡ true }
    ensures { result ≡ bad_file_length spec len }
{
    if len < index_length(spec) {
        return true;
    }
    MOST_SHARD_BYTES < len
}
