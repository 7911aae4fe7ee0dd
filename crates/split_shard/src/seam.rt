// The earlier edition of a shard, an index file and a data file, taken as their concatenation: the lengths of the two, and byte ranges.
pub mod inner;

ghost use Rattle.std.specs.Prelude.{◌≡◌, ◌+◌};
ghost use Rattle.split_shard.specs.held_range.Held.{either, range_start, range_bytes};
ghost use Rattle.split_shard.specs.seam.Range.{range_answer};

use crate::held_range::RangeAnswer;
use crate::held_range::inner::{held, held_part};
use sharding::Sharding;
use sharding::limits::is_allowed;

// Where the bytes of the joined file from `start` up to `end`, end excluded, are, or the refusal.
pub fn range(spec: Sharding, index: &[u8], data: &[u8], start: u64, end: u64) -> RangeAnswer
    ensures answer { result ≡ range_answer spec index.now «data».now start end }
{
    if !is_allowed(spec) {
        return RangeAnswer::Refused(1);
    }
    let number = inner::length_number(spec, index, data);
    if number != 0 {
        return RangeAnswer::Refused(number);
    }
    held(
        index.len() as u64,
        (index.len() + data.len()) as u64,
        start,
        end,
    )
}

// They themselves, a part of the index file or of the data file, uncopied; refused, the empty part at the data file's start.
pub fn range_part<'a>(
    spec: Sharding,
    index: &'a [u8],
    data: &'a [u8],
    start: u64,
    end: u64,
) -> &'a [u8]
    ensures answer { result.now ≡ range_bytes (range_answer spec index.now «data».now start end) index.now «data».now }
    ensures place { (result.ref_ptr.0 ≡ either (range_answer spec index.now «data».now start end) index.entry.ref_ptr.0 «data».entry.ref_ptr.0) × (result.ref_ptr.1 ≡ either (range_answer spec index.now «data».now start end) index.entry.ref_ptr.1 «data».entry.ref_ptr.1 + range_start (range_answer spec index.now «data».now start end)) }
{
    held_part(index, data, range(spec, index, data, start, end))
}
