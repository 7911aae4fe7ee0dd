// One minishard of a settled form, written as it stands in the shard.

ghost use Rattle.std.specs.Prelude.{◌≡◌, ◌+◌, ◌*◌, ◌≤◌, length};
ghost use Rattle.endian.specs.Place.{paste};
ghost use Rattle.endian.specs.Range.{sum_to};
ghost use Rattle.shard.specs.index.Index.{sizes};
ghost use Rattle.settled_form.specs.Form.{part_of};
ghost use Rattle.settled_form.specs.Content.{items_at};
ghost use Rattle.settle.specs.minishard_length.Writing.{ReadableIndex, Stored};

use crate::chunk_runs::{copy_chunks, put_starts};
use endian::copying::copy_bytes;
use sharding::Sharding;

// The minishard at the place p, which counts from `base`.
pub fn settle_stored(
    spec: Sharding,
    data: &[u8],
    s: usize,
    n: usize,
    out: &mut [u8],
    base: usize,
    p: usize,
) -> usize
    requires readable_index { ReadableIndex «data».now s n × Stored spec «data».now s n }
    requires n_in_bounds { base + p + (sum_to (sizes «data».now s n) n + 24 * n) ≤ length out.old }
    ensures value { result ≡ sum_to (sizes «data».now s n) n + 24 * n }
    ensures out_after { out.new ≡ paste (base + p) (part_of p (items_at spec «data».now s n)) out.old }
{
    let begin = base + p;
    let ids = copy_chunks(data, s, n, out, begin);
    copy_bytes(data, s, 8 * n, out, ids);
    let starts = ids + 8 * n;
    put_starts(out, starts, n, p);
    let sizes = starts + 8 * n;
    copy_bytes(data, s + 16 * n, 8 * n, out, sizes);
    (sizes + 8 * n) - begin
}
