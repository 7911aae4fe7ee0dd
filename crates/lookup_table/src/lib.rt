// A minishard index of a volume judged once: `fill_table` writes a table of its entries into lent memory, in which
// `find_in_table` then finds ids.
#![tactic(auto)]

pub mod filling;
pub mod finding;
pub mod sorting;

ghost use Rattle.std.specs.Prelude.{◌≡◌};
ghost use Rattle.lookup_table.specs.Fill.{fill_answer, fill_left};

pub use finding::find_in_table;
use lookup::{LookupAnswer, index_range};
use refusal::CountAnswer;
use sharding::Sharding;

// The table of the minishard that `id` belongs to, from the bytes of its entry in the shard index and of its minishard index, in a file of `len` bytes: for
// each entry its id, where its chunk lies in the file and its length, by rising id, at the front of `out`. Refusals: 1 (of a mesh too), 5, 6, 31 where a
// slice has not the length of its range, 7 to 11, 13 where `out` has fewer than three numbers for each entry; they leave `out` as it was.
pub fn fill_table(
    spec: Sharding,
    shard: u64,
    id: u64,
    len: u64,
    entry: &[u8],
    rows: &[u8],
    out: &mut [u64],
) -> CountAnswer
    ensures answer { result ≡ fill_answer spec shard id len entry.now rows.now out.old }
    ensures table { out.new ≡ fill_left spec shard id len entry.now rows.now out.old }
{
    let range = index_range(spec, shard, id, len, entry);
    match range {
        LookupAnswer::Found { start, length } => {
            filling::rows_fill(spec, shard, id, len, start, length, rows, out)
        }
        LookupAnswer::Refused(number) => filling::empty_or(number),
        LookupAnswer::Faulty { number, position } => CountAnswer::Faulty { number, position },
    }
}
