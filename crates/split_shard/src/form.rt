// A shard of the earlier edition, an index file and a data file: its listings, its unlisted bytes and its settled form, as for the two joined.

ghost use Rattle.std.specs.Prelude.{◌≡◌};
ghost use Rattle.split_shard.specs.form.Answers.{pair_count, pair_listing, pair_listing_left, pair_unlisted, pair_length, pair_settle, pair_settle_left};

use crate::check;
use crate::seam::inner::length_number;
use lookup::entries::put_listing;
use lookup::listings::inner::count_parts;
use refusal::CountAnswer;
use settle::answers::answer_of;
use settle::two_parts::{length_answer, settle_answer};
use shard::CheckAnswer;
use sharding::Sharding;
use sharding::limits::{is_allowed, minishard_count, shard_count};
use unlisted::counting::unlisted;

// How many chunks a minishard lists.
pub fn listed_count(
    spec: Sharding,
    shard: u64,
    index: &[u8],
    data: &[u8],
    minishard: u64,
) -> CountAnswer
    ensures answer { result ≡ pair_count spec shard index.now «data».now minishard }
{
    if !is_allowed(spec) {
        return CountAnswer::Refused(1);
    }
    if shard_count(spec) <= shard {
        return CountAnswer::Refused(5);
    }
    if minishard_count(spec) <= minishard {
        return CountAnswer::Refused(33);
    }
    let number = length_number(spec, index, data);
    if number != 0 {
        return CountAnswer::Refused(number);
    }
    count_parts(spec, shard, index, data, minishard)
}

// The ids, places in the joined file and lengths of its chunks, in stored order. The answer is how many numbers were written.
pub fn listing(
    spec: Sharding,
    shard: u64,
    index: &[u8],
    data: &[u8],
    minishard: u64,
    out: &mut [u64],
) -> CountAnswer
    ensures answer { result ≡ pair_listing spec shard index.now «data».now minishard out.old }
    ensures out { out.new ≡ pair_listing_left spec shard index.now «data».now minishard out.old }
{
    match listed_count(spec, shard, index, data, minishard) {
        CountAnswer::Count(count) => {
            if out.len() / 3 < count {
                return CountAnswer::Refused(13);
            }
            put_listing(index, data, minishard, out);
            CountAnswer::Count(3 * count)
        }
        CountAnswer::Refused(number) => CountAnswer::Refused(number),
        CountAnswer::Faulty { number, position } => CountAnswer::Faulty { number, position },
    }
}

// The number of unlisted bytes of a sound pair, or the refusal.
pub fn unlisted_count(spec: Sharding, shard: u64, index: &[u8], data: &[u8]) -> CountAnswer
    ensures answer { result ≡ pair_unlisted spec shard index.now «data».now }
{
    match check(spec, shard, index, data) {
        CheckAnswer::Sound => CountAnswer::Count(unlisted(spec, index, data) as usize),
        CheckAnswer::Refused(number) => CountAnswer::Refused(number),
        CheckAnswer::Faulty {
            number,
            minishard: _,
            position,
        } => CountAnswer::Faulty { number, position },
    }
}

// The length of the settled form of a sound pair, one file, or the refusal.
pub fn settled_length(
    spec: Sharding,
    shard: u64,
    index: &[u8],
    data: &[u8],
    dropping: bool,
) -> CountAnswer
    ensures answer { result ≡ pair_length spec shard index.now «data».now dropping }
{
    match check(spec, shard, index, data) {
        CheckAnswer::Sound => answer_of(length_answer(spec, index, data, dropping)),
        CheckAnswer::Refused(number) => CountAnswer::Refused(number),
        CheckAnswer::Faulty {
            number,
            minishard: _,
            position,
        } => CountAnswer::Faulty { number, position },
    }
}

// Writes that form to the front of `out`. A refusal leaves `out` as it was.
pub fn settle(
    spec: Sharding,
    shard: u64,
    index: &[u8],
    data: &[u8],
    dropping: bool,
    out: &mut [u8],
) -> CountAnswer
    ensures answer { result ≡ pair_settle spec shard index.now «data».now dropping out.old }
    ensures out { out.new ≡ pair_settle_left spec shard index.now «data».now dropping out.old }
{
    match check(spec, shard, index, data) {
        CheckAnswer::Sound => answer_of(settle_answer(spec, index, data, dropping, out)),
        CheckAnswer::Refused(number) => CountAnswer::Refused(number),
        CheckAnswer::Faulty {
            number,
            minishard: _,
            position,
        } => CountAnswer::Faulty { number, position },
    }
}
