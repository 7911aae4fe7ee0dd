// The ids of a minishard from their steps, ids that rise, and whether an earlier entry has an id.

ghost use Rattle.std.specs.Prelude.{◌≡◌, ◌+◌, ◌*◌, ◌%◌, ◌^◌, ◌≤◌, false, ◌&&◌, length, ◌==◌, nat_eq, nat_lt};
ghost use Rattle.endian.specs.Little.{row_at};
ghost use Rattle.endian.specs.Range.{sum_to, any_below, first};
ghost use Rattle.duplicate_ids.specs.ids.Ids.{id_at, repeats, stops_rising};

use endian::read_u64;

// The id of entry i, from that of the entry before it.
pub fn next_id(data: &[u8], p: usize, i: usize, before: u64) -> u64
    requires i_in_bounds { p + 8 * i + 8 ≤ length «data».now }
    requires before_value { before ≡ sum_to (row_at «data».now p) i % 2 ^ 64 }
    ensures { result ≡ id_at (row_at «data».now p) i }
{
    before.wrapping_add(read_u64(data, p + 8 * i))
}

// As many of the first entries as have ids that rise: none of them has the id of an earlier one.
pub fn rising(data: &[u8], p: usize, n: usize) -> usize
    requires { p + 8 * n ≤ length «data».now }
    ensures { (result ≡ first (stops_rising (id_at (row_at «data».now p))) n) × (result ≤ n) × (any_below result (repeats (id_at (row_at «data».now p))) ≡ false) }
{
    let mut id: u64 = 0;
    for i in 0..n {
        let step = read_u64(data, p + 8 * i);
        if 0 < i && step == 0 {
            return i;
        }
        if u64::MAX - id < step {
            return i;
        }
        id += step;
    }
    n
}

// Entry i has the id of the one before it.
pub fn stays(data: &[u8], p: usize, i: usize) -> bool
    requires { p + 8 * i + 8 ≤ length «data».now }
    ensures { result ≡ (nat_lt 0 i && row_at «data».now p i == 0) }
{
    (0 < i) & (read_u64(data, p + 8 * i) == 0)
}

// An entry before entry i has the id x.
pub fn stands_before(data: &[u8], p: usize, i: usize, x: u64) -> bool
    requires { p + 8 * i ≤ length «data».now }
    ensures { result ≡ any_below i (λ j. nat_eq (id_at (row_at «data».now p) j) x) }
{
    let mut id: u64 = 0;
    for j in 0..i {
        id = next_id(data, p, j, id);
        if id == x {
            return true;
        }
    }
    false
}
