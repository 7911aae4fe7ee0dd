// The yearly holdings sheet: shards sound, shards refused for each number, and what the sound ones hold.
#![tactic(auto)]

mod adding;
pub mod chunk_sums;
pub mod measures;
pub mod one_shard;
pub mod totals;

ghost use Rattle.std.specs.Prelude.{◌≡◌};
ghost use Rattle.holdings.specs.Answers.{join_answer, add_answer, pair_add_answer};

use crate::adding::add_measured;
use crate::one_shard::{Sheet, from_rows, rows_of};
use crate::totals::add_rows;
pub use measures::{measure, measure_pair};
use refusal::Refusal;
use sharding::Sharding;

// Two sheets together, as those of the parts of a year's work.
pub fn join(sheet: Sheet, other: Sheet) -> Result<Sheet, Refusal>
    ensures answer { result ≡ join_answer sheet other }
{
    let mut totals = rows_of(sheet);
    let others = rows_of(other);
    if add_rows(&mut totals, &others) {
        return Err(Refusal::TotalTooLarge);
    }
    Ok(from_rows(totals))
}

// A sheet with one shard more, sound or not.
pub fn add(sheet: Sheet, spec: Sharding, shard: u64, file: &[u8]) -> Result<Sheet, Refusal>
    ensures answer { result ≡ add_answer sheet spec shard file.now }
{
    add_measured(sheet, measure(spec, shard, file))
}

// A sheet with one pair more of the earlier edition.
pub fn add_pair(
    sheet: Sheet,
    spec: Sharding,
    shard: u64,
    index: &[u8],
    data: &[u8],
) -> Result<Sheet, Refusal>
    ensures answer { result ≡ pair_add_answer sheet spec shard index.now «data».now }
{
    add_measured(sheet, measure_pair(spec, shard, index, data))
}
