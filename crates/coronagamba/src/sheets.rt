// Measures of shards, and the yearly holdings sheet.

ghost use Rattle.std.specs.Prelude.{◌≡◌, ℕ, ◌+◌, ◌<◌};
ghost use Rattle.holdings.specs.declared.measures.MeasureAnswer.TheVariants.{Faulty};
ghost use Rattle.holdings.specs.measures.Answers.{measure_answer, pair_measure, measure_result};
ghost use Rattle.holdings.specs.Answers.{join_answer, add_answer, pair_add_answer, sheet_result};
ghost use Rattle.holdings.specs.one_shard.Sheet.{from_rows_of};
ghost use Rattle.coronagamba.specs.word.Word.{word_of};
ghost use Rattle.coronagamba.specs.Specification.{given_sharding};
ghost use Rattle.coronagamba.specs.Sheets.{counts_of, counts_after_of, rows_after};

use crate::numbers::{CSharding, sharding_of};
use crate::word::fault_word;
use holdings::measures::{Counts, MeasureAnswer};
use holdings::one_shard::{Sheet, from_rows, rows_of};
use refusal::Refusal;

fn counts_of(counts: Counts) -> [u64; 4]
    ensures { result ≡ counts_of counts }
{
    [counts.chunks, counts.bytes, counts.unlisted, counts.settled]
}

// The counts, or the refusal.
fn put_counts(counts: &mut [u64; 4], answer: MeasureAnswer) -> u64
    requires { (k m p : ℕ) → answer ≡ Faulty k m p → (m + 1 < 16777216) × (p + 1 < 4294967296) }
    ensures value { result ≡ word_of (measure_result answer) }
    ensures counts_after { counts.new ≡ counts_after_of answer counts.old }
{
    match answer {
        MeasureAnswer::Sound(found) => {
            *counts = counts_of(found);
            0
        }
        MeasureAnswer::Refused(refusal) => refusal as u64,
        MeasureAnswer::Faulty {
            number: refusal,
            minishard,
            position,
        } => fault_word(refusal, minishard, position),
    }
}

// The new rows, or the refusal.
fn put_sheet(sheet: &mut [u64; 17], answer: Result<Sheet, Refusal>) -> u64
    ensures value { result ≡ word_of (sheet_result answer) }
    ensures sheet_after { sheet.new ≡ rows_after answer sheet.old }
{
    match answer {
        Ok(next) => {
            *sheet = rows_of(next);
            0
        }
        Err(refusal) => refusal.number() as u64,
    }
}

// What a shard holds. Writes four numbers to `counts`: the chunks listed, the sum of their sizes, the
// unlisted bytes, and the bytes of the settled form, 1,073,741,825 where that would pass 1 GiB. The
// shard is judged once, as coronagamba_check judges it.
// Refusals: 1, 5, 6, 7 to 11, 15 to 17 (mesh), 21 (mesh) with the minishard and the position, 27
// where the sizes together pass 2^64 - 1
pub fn coronagamba_measure(
    sharding: CSharding,
    shard: u64,
    file: &[u8],
    counts: &mut [u64; 4],
) -> u64
    ensures answer { result ≡ word_of (measure_result (measure_answer (given_sharding sharding) shard file.now)) }
    ensures counts { counts.new ≡ counts_after_of (measure_answer (given_sharding sharding) shard file.now) counts.old }
{
    let answer = holdings::measure(sharding_of(sharding), shard, file);
    put_counts(counts, answer)
}

// coronagamba_measure of a pair. The position is that in the joined file.
// Refusals: 1, 5, 23, 6, 7 to 11, 15 to 17 (mesh), 21 (mesh) with the minishard and the position, 27
// where the sizes together pass 2^64 - 1
pub fn coronagamba_pair_measure(
    sharding: CSharding,
    shard: u64,
    index: &[u8],
    data: &[u8],
    counts: &mut [u64; 4],
) -> u64
    ensures answer { result ≡ word_of (measure_result (pair_measure (given_sharding sharding) shard index.now «data».now)) }
    ensures counts { counts.new ≡ counts_after_of (pair_measure (given_sharding sharding) shard index.now «data».now) counts.old }
{
    let answer = holdings::measure_pair(sharding_of(sharding), shard, index, data);
    put_counts(counts, answer)
}

// Adds a shard to a holdings sheet: to its shards sound, or to those refused with the number that
// coronagamba_check gives; where it is sound, to the chunks listed, the sum of their sizes and the
// unlisted bytes. `sheet` has 17 numbers in this order: shards sound; shards refused with 1, 5, 6, 7,
// 8, 9, 10, 11, 15, 16, 17, 21, 23; chunks, their bytes, unlisted bytes. An empty sheet is 0 in each;
// any numbers are taken. The shard is judged once. Refused, the sheet stays as it was.
// Refusals: 27 where a total would pass 2^64 - 1
pub fn coronagamba_sheet_add(
    sheet: &mut [u64; 17],
    sharding: CSharding,
    shard: u64,
    file: &[u8],
) -> u64
    ensures answer { result ≡ word_of (sheet_result (add_answer (from_rows_of sheet.old) (given_sharding sharding) shard file.now)) }
    ensures sheet { sheet.new ≡ rows_after (add_answer (from_rows_of sheet.old) (given_sharding sharding) shard file.now) sheet.old }
{
    let answer = holdings::add(from_rows(*sheet), sharding_of(sharding), shard, file);
    put_sheet(sheet, answer)
}

// coronagamba_sheet_add of a pair.
// Refusals: 27 where a total would pass 2^64 - 1
pub fn coronagamba_pair_sheet_add(
    sheet: &mut [u64; 17],
    sharding: CSharding,
    shard: u64,
    index: &[u8],
    data: &[u8],
) -> u64
    ensures answer { result ≡ word_of (sheet_result (pair_add_answer (from_rows_of sheet.old) (given_sharding sharding) shard index.now «data».now)) }
    ensures sheet { sheet.new ≡ rows_after (pair_add_answer (from_rows_of sheet.old) (given_sharding sharding) shard index.now «data».now) sheet.old }
{
    let answer = holdings::add_pair(from_rows(*sheet), sharding_of(sharding), shard, index, data);
    put_sheet(sheet, answer)
}

// Adds a sheet to another, row by row: the sheets of two parts of a year's work make that of both.
// Refused, `sheet` stays as it was.
// Refusals: 27 where a total would pass 2^64 - 1
pub fn coronagamba_sheet_join(sheet: &mut [u64; 17], other: &[u64; 17]) -> u64
    ensures answer { result ≡ word_of (sheet_result (join_answer (from_rows_of sheet.old) (from_rows_of other.now))) }
    ensures sheet { sheet.new ≡ rows_after (join_answer (from_rows_of sheet.old) (from_rows_of other.now)) sheet.old }
{
    let answer = holdings::join(from_rows(*sheet), from_rows(*other));
    put_sheet(sheet, answer)
}
