// The items that the entries of a minishard index name, copied with their leads in the order of the entries.

ghost use Rattle.std.specs.Prelude.{◌≡◌, ◌+◌, ◌*◌, ◌≤◌, length};
ghost use Rattle.endian.specs.Little.{row};
ghost use Rattle.endian.specs.Place.{paste};
ghost use Rattle.settled_form.specs.Form.{chunks_of, chunks_length, start_row};
ghost use Rattle.index_sort.specs.three_rows.Rows.{entries_at};
ghost use Rattle.settle.specs.item_runs.Named.{named, InData};

use endian::copying::copy_bytes;
use endian::put_u64;
use index_sort::three_rows::get;
use shard::lengths::lead_length;
use sharding::Sharding;

// The items of the entries whose rows stand at q, lead and chunk in one run, one after the other in the order of the rows. The place
// of an entry's start is then free for its start step: its lead, and for the first the minishard's place p too.
pub fn copy_items(
    spec: Sharding,
    data: &[u8],
    n: usize,
    out: &mut [u8],
    q: usize,
    at: usize,
    p: usize,
)
    requires in_data { InData spec «data».now (entries_at out.old q n) × (p ≤ at) }
    requires n_bound { (at + chunks_length (named spec «data».now (entries_at out.old q n)) ≤ q) × (q + 24 * n ≤ length out.old) }
    ensures { out.new ≡ paste at (chunks_of (named spec «data».now (entries_at out.old q n))) (paste (q + 8 * n) (row (start_row p (named spec «data».now (entries_at out.old q n)))) out.old) }
{
    let mut to = at;
    let mut place = p;
    for i in 0..n {
        let e = get(out, q, n, i);
        let start = e.start as usize;
        let size = e.size as usize;
        let lead = lead_length(spec, data, start, size);
        let len = lead + size;
        copy_bytes(data, start - lead, len, out, to);
        put_u64(out, q + 8 * n + 8 * i, (place + lead) as u64);
        place = 0;
        to += len;
    }
}
