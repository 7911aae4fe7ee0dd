// Measures of shards, and the yearly holdings sheet.
// Made by ./interface: change crates/coronagamba, then run it.

ghost use Rattle.std.specs.Prelude.{◌≡◌};
ghost use Rattle.holdings.specs.measures.Answers.{measure_answer, pair_measure, measure_result};
ghost use Rattle.holdings.specs.Answers.{join_answer, add_answer, pair_add_answer, sheet_result};
ghost use Rattle.holdings.specs.one_shard.Sheet.{from_rows_of};
ghost use Rattle.coronagamba.specs.word.Word.{word_of};
ghost use Rattle.coronagamba.specs.Specification.{given_sharding};
ghost use Rattle.coronagamba.specs.Sheets.{counts_after_of, rows_after};

use coronagamba::CSharding;

#[unsafe(no_mangle)]
pub extern "C" fn coronagamba_measure(
    sharding: CSharding,
    shard: u64,
    file: &[u8],
    counts: &mut [u64; 4],
) -> u64
    ensures answer { result ≡ word_of (measure_result (measure_answer (given_sharding sharding) shard file.now)) }
    ensures counts { counts.new ≡ counts_after_of (measure_answer (given_sharding sharding) shard file.now) counts.old }
{
    coronagamba::sheets::coronagamba_measure(sharding, shard, file, counts)
}

#[unsafe(no_mangle)]
pub extern "C" fn coronagamba_pair_measure(
    sharding: CSharding,
    shard: u64,
    index: &[u8],
    data: &[u8],
    counts: &mut [u64; 4],
) -> u64
    ensures answer { result ≡ word_of (measure_result (pair_measure (given_sharding sharding) shard index.now «data».now)) }
    ensures counts { counts.new ≡ counts_after_of (pair_measure (given_sharding sharding) shard index.now «data».now) counts.old }
{
    coronagamba::sheets::coronagamba_pair_measure(sharding, shard, index, data, counts)
}

#[unsafe(no_mangle)]
pub extern "C" fn coronagamba_sheet_add(
    sheet: &mut [u64; 17],
    sharding: CSharding,
    shard: u64,
    file: &[u8],
) -> u64
    ensures answer { result ≡ word_of (sheet_result (add_answer (from_rows_of sheet.old) (given_sharding sharding) shard file.now)) }
    ensures sheet { sheet.new ≡ rows_after (add_answer (from_rows_of sheet.old) (given_sharding sharding) shard file.now) sheet.old }
{
    coronagamba::sheets::coronagamba_sheet_add(sheet, sharding, shard, file)
}

#[unsafe(no_mangle)]
pub extern "C" fn coronagamba_pair_sheet_add(
    sheet: &mut [u64; 17],
    sharding: CSharding,
    shard: u64,
    index: &[u8],
    data: &[u8],
) -> u64
    ensures answer { result ≡ word_of (sheet_result (pair_add_answer (from_rows_of sheet.old) (given_sharding sharding) shard index.now «data».now)) }
    ensures sheet { sheet.new ≡ rows_after (pair_add_answer (from_rows_of sheet.old) (given_sharding sharding) shard index.now «data».now) sheet.old }
{
    coronagamba::sheets::coronagamba_pair_sheet_add(sheet, sharding, shard, index, data)
}

#[unsafe(no_mangle)]
pub extern "C" fn coronagamba_sheet_join(sheet: &mut [u64; 17], other: &[u64; 17]) -> u64
    ensures answer { result ≡ word_of (sheet_result (join_answer (from_rows_of sheet.old) (from_rows_of other.now))) }
    ensures sheet { sheet.new ≡ rows_after (join_answer (from_rows_of sheet.old) (from_rows_of other.now)) sheet.old }
{
    coronagamba::sheets::coronagamba_sheet_join(sheet, other)
}
