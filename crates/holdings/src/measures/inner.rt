// What is counted over a shard that passed the check, by its shard index and the data behind it.

ghost use Rattle.std.specs.Prelude.{◌≡◌};
ghost use Rattle.unlisted.specs.stretches.Reading.{RangedShard};
ghost use Rattle.settle.specs.length.Settleable.{SettleableShard};
ghost use Rattle.holdings.specs.measures.Answers.{measured_in};

use crate::chunk_sums::{chunk_bytes, chunk_count};
use crate::measures::{Counts, MeasureAnswer};
use settle::length::form_length;
use sharding::Sharding;
use sharding::limits::minishard_count;
use unlisted::counting::unlisted;

// The measure of a shard that passed the check, or 27.
pub fn measured(spec: Sharding, index: &[u8], data: &[u8]) -> MeasureAnswer
    requires { SettleableShard spec index.now «data».now × RangedShard spec index.now «data».now }
    ensures { result ≡ measured_in spec index.now «data».now }
{
    let n = minishard_count(spec);
    let bytes = chunk_bytes(index, data, n);
    if bytes.passed {
        return MeasureAnswer::Refused(27);
    }
    let chunks = chunk_count(index, n);
    let unlisted = unlisted(spec, index, data);
    let settled = form_length(spec, index, data) as u64;
    MeasureAnswer::Sound(Counts {
        chunks,
        bytes: bytes.sum,
        unlisted,
        settled,
    })
}
