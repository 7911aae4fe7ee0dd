// Settling a shard: writing it in its settled form.
#![tactic(auto)]

pub mod answers;
pub mod as_it_stands;
pub mod chunk_runs;
pub mod item_runs;
pub mod length;
pub mod minishard_length;
pub mod sorted;
pub mod stored;
pub mod two_parts;
pub mod writing;

ghost use Rattle.std.specs.Prelude.{◌≡◌};
ghost use Rattle.settle.specs.answers.Answers.{length_answer, settle_answer, settle_left};

use crate::answers::answer_of;
use refusal::CountAnswer;
use shard::lengths::index_length;
use shard::{CheckAnswer, check};
use sharding::Sharding;

// The length of the settled form of a sound shard, or the refusal. Unlisted bytes are refused unless the caller asks for `dropping` them.
pub fn settled_length(spec: Sharding, shard: u64, file: &[u8], dropping: bool) -> CountAnswer
    ensures answer { result ≡ length_answer spec shard file.now dropping }
{
    match check(spec, shard, file) {
        CheckAnswer::Sound => {
            let n = index_length(spec);
            answer_of(two_parts::length_answer(spec, &file[..n], &file[n..], dropping))
        }
        CheckAnswer::Refused(number) => CountAnswer::Refused(number),
        CheckAnswer::Faulty {
            number,
            minishard: _,
            position,
        } => CountAnswer::Faulty { number, position },
    }
}

// Writes the settled form of a sound shard to the front of `out`; what is unlisted is refused, or dropped where the caller asks for it.
// A refusal leaves `out` as it was.
pub fn settle(
    spec: Sharding,
    shard: u64,
    file: &[u8],
    dropping: bool,
    out: &mut [u8],
) -> CountAnswer
    ensures answer { result ≡ settle_answer spec shard file.now dropping out.old }
    ensures out { out.new ≡ settle_left spec shard file.now dropping out.old }
{
    match check(spec, shard, file) {
        CheckAnswer::Sound => {
            let n = index_length(spec);
            answer_of(two_parts::settle_answer(spec, &file[..n], &file[n..], dropping, out))
        }
        CheckAnswer::Refused(number) => CountAnswer::Refused(number),
        CheckAnswer::Faulty {
            number,
            minishard: _,
            position,
        } => CountAnswer::Faulty { number, position },
    }
}
