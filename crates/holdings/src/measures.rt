// The measure of a shard: the chunks that it lists, their bytes, its unlisted bytes and the length of its settled form.
pub mod inner;

ghost use Rattle.std.specs.Prelude.{◌≡◌};
ghost use Rattle.holdings.specs.measures.Answers.{measure_answer, pair_measure};

use shard::lengths::index_length;
use shard::{CheckAnswer, check};
use sharding::Sharding;

// Of a sound shard: how many chunks it lists, the sum of their sizes, how many bytes are unlisted, and how many its settled form has,
// 1,073,741,825 where that would pass 1 GiB.
#[derive(Clone, Copy)]
pub struct Counts {
    pub chunks: u64,
    pub bytes: u64,
    pub unlisted: u64,
    pub settled: u64,
}

// The measure, or the refusal: as the check gives it, or 27.
#[derive(Clone, Copy)]
pub enum MeasureAnswer {
    Sound(Counts),
    Refused(u8),
    Faulty {
        number: u8,
        minishard: u64,
        position: u64,
    },
}

// The measure of a shard, which is judged once.
pub fn measure(spec: Sharding, shard: u64, file: &[u8]) -> MeasureAnswer
    ensures answer { result ≡ measure_answer spec shard file.now }
{
    match check(spec, shard, file) {
        CheckAnswer::Sound => {
            let n = index_length(spec);
            inner::measured(spec, &file[..n], &file[n..])
        }
        CheckAnswer::Refused(number) => MeasureAnswer::Refused(number),
        CheckAnswer::Faulty {
            number,
            minishard,
            position,
        } => MeasureAnswer::Faulty {
            number,
            minishard,
            position,
        },
    }
}

// The measure of a pair of the earlier edition, an index file and a data file.
pub fn measure_pair(spec: Sharding, shard: u64, index: &[u8], data: &[u8]) -> MeasureAnswer
    ensures answer { result ≡ pair_measure spec shard index.now «data».now }
{
    match split_shard::check(spec, shard, index, data) {
        CheckAnswer::Sound => inner::measured(spec, index, data),
        CheckAnswer::Refused(number) => MeasureAnswer::Refused(number),
        CheckAnswer::Faulty {
            number,
            minishard,
            position,
        } => MeasureAnswer::Faulty {
            number,
            minishard,
            position,
        },
    }
}
