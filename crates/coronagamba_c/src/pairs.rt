// Shards of the earlier edition, an index file and a data file each.
// Made by ./interface: change crates/coronagamba, then run it.

ghost use Rattle.std.specs.Prelude.{◌≡◌};
ghost use Rattle.split_shard.specs.seam.Range.{range_answer, range_result};
ghost use Rattle.split_shard.specs.Answers.{pair_check, pair_lookup, pair_fragment};
ghost use Rattle.split_shard.specs.form.Answers.{pair_count, pair_listing, pair_listing_left, pair_unlisted, pair_length, pair_settle, pair_settle_left};
ghost use Rattle.names.specs.Shards.{file_name_answer, file_name_left};
ghost use Rattle.names.specs.declared.FileKind.TheVariants.{Index, Data};
ghost use Rattle.shard.specs.File.{check_result};
ghost use Rattle.refusal.specs.Result.{count_result, written_result};
ghost use Rattle.lookup.specs.Find.{lookup_result};
ghost use Rattle.coronagamba.specs.Specification.{given_sharding};
ghost use Rattle.coronagamba.specs.word.Word.{length_after, asks_to_drop, word_of};
ghost use Rattle.coronagamba.specs.Shards.{start_after, size_after, count_after};
ghost use Rattle.coronagamba.specs.Pairs.{file_after, place_after, range_after};

use coronagamba::CSharding;

#[unsafe(no_mangle)]
pub extern "C" fn coronagamba_pair_check(
    sharding: CSharding,
    shard: u64,
    index: &[u8],
    data: &[u8],
) -> u64
    ensures answer { result ≡ word_of (check_result (pair_check (given_sharding sharding) shard index.now «data».now)) }
{
    coronagamba::pairs::coronagamba_pair_check(sharding, shard, index, data)
}

#[unsafe(no_mangle)]
pub extern "C" fn coronagamba_pair_lookup(
    sharding: CSharding,
    shard: u64,
    index: &[u8],
    data: &[u8],
    id: u64,
    start: &mut u64,
    length: &mut u64,
) -> u64
    ensures answer { result ≡ word_of (lookup_result (pair_lookup (given_sharding sharding) shard index.now «data».now id)) }
    ensures start { start.new ≡ start_after (pair_lookup (given_sharding sharding) shard index.now «data».now id) start.old }
    ensures length { length.new ≡ size_after (pair_lookup (given_sharding sharding) shard index.now «data».now id) length.old }
{
    coronagamba::pairs::coronagamba_pair_lookup(sharding, shard, index, data, id, start, length)
}

#[unsafe(no_mangle)]
pub extern "C" fn coronagamba_pair_fragment(
    sharding: CSharding,
    shard: u64,
    index: &[u8],
    data: &[u8],
    id: u64,
    level: u32,
    node: u32,
    start: &mut u64,
    length: &mut u64,
) -> u64
    ensures answer { result ≡ word_of (lookup_result (pair_fragment (given_sharding sharding) shard index.now «data».now id level node)) }
    ensures start { start.new ≡ start_after (pair_fragment (given_sharding sharding) shard index.now «data».now id level node) start.old }
    ensures length { length.new ≡ size_after (pair_fragment (given_sharding sharding) shard index.now «data».now id level node) length.old }
{
    coronagamba::pairs::coronagamba_pair_fragment(
        sharding, shard, index, data, id, level, node, start, length,
    )
}

#[unsafe(no_mangle)]
pub extern "C" fn coronagamba_pair_listed_count(
    sharding: CSharding,
    shard: u64,
    index: &[u8],
    data: &[u8],
    minishard: u64,
    chunks: &mut u64,
) -> u64
    ensures answer { result ≡ word_of (count_result (pair_count (given_sharding sharding) shard index.now «data».now minishard)) }
    ensures chunks { chunks.new ≡ count_after (pair_count (given_sharding sharding) shard index.now «data».now minishard) chunks.old }
{
    coronagamba::pairs::coronagamba_pair_listed_count(
        sharding, shard, index, data, minishard, chunks,
    )
}

#[unsafe(no_mangle)]
pub extern "C" fn coronagamba_pair_listing(
    sharding: CSharding,
    shard: u64,
    index: &[u8],
    data: &[u8],
    minishard: u64,
    out: &mut [u64],
    length: &mut u64,
) -> u64
    ensures answer { result ≡ word_of (count_result (pair_listing (given_sharding sharding) shard index.now «data».now minishard out.old)) }
    ensures out { out.new ≡ pair_listing_left (given_sharding sharding) shard index.now «data».now minishard out.old }
    ensures length { length.new ≡ count_after (pair_listing (given_sharding sharding) shard index.now «data».now minishard out.old) length.old }
{
    coronagamba::pairs::coronagamba_pair_listing(
        sharding, shard, index, data, minishard, out, length,
    )
}

#[unsafe(no_mangle)]
pub extern "C" fn coronagamba_pair_unlisted(
    sharding: CSharding,
    shard: u64,
    index: &[u8],
    data: &[u8],
    bytes: &mut u64,
) -> u64
    ensures answer { result ≡ word_of (count_result (pair_unlisted (given_sharding sharding) shard index.now «data».now)) }
    ensures bytes { bytes.new ≡ count_after (pair_unlisted (given_sharding sharding) shard index.now «data».now) bytes.old }
{
    coronagamba::pairs::coronagamba_pair_unlisted(sharding, shard, index, data, bytes)
}

#[unsafe(no_mangle)]
pub extern "C" fn coronagamba_pair_settled_length(
    sharding: CSharding,
    shard: u64,
    index: &[u8],
    data: &[u8],
    drop_unlisted: u64,
    length: &mut u64,
) -> u64
    ensures answer { result ≡ word_of (count_result (pair_length (given_sharding sharding) shard index.now «data».now (asks_to_drop drop_unlisted))) }
    ensures length { length.new ≡ count_after (pair_length (given_sharding sharding) shard index.now «data».now (asks_to_drop drop_unlisted)) length.old }
{
    coronagamba::pairs::coronagamba_pair_settled_length(
        sharding,
        shard,
        index,
        data,
        drop_unlisted,
        length,
    )
}

#[unsafe(no_mangle)]
pub extern "C" fn coronagamba_pair_settle(
    sharding: CSharding,
    shard: u64,
    index: &[u8],
    data: &[u8],
    drop_unlisted: u64,
    out: &mut [u8],
    length: &mut u64,
) -> u64
    ensures answer { result ≡ word_of (count_result (pair_settle (given_sharding sharding) shard index.now «data».now (asks_to_drop drop_unlisted) out.old)) }
    ensures out { out.new ≡ pair_settle_left (given_sharding sharding) shard index.now «data».now (asks_to_drop drop_unlisted) out.old }
    ensures length { length.new ≡ count_after (pair_settle (given_sharding sharding) shard index.now «data».now (asks_to_drop drop_unlisted) out.old) length.old }
{
    coronagamba::pairs::coronagamba_pair_settle(
        sharding,
        shard,
        index,
        data,
        drop_unlisted,
        out,
        length,
    )
}

#[unsafe(no_mangle)]
pub extern "C" fn coronagamba_pair_range(
    sharding: CSharding,
    index: &[u8],
    data: &[u8],
    start: u64,
    end: u64,
    file: &mut u32,
    place: &mut u64,
    length: &mut u64,
) -> u64
    ensures answer { result ≡ word_of (range_result (range_answer (given_sharding sharding) index.now «data».now start end)) }
    ensures file { file.new ≡ file_after (range_answer (given_sharding sharding) index.now «data».now start end) file.old }
    ensures place { place.new ≡ place_after (range_answer (given_sharding sharding) index.now «data».now start end) place.old }
    ensures length { length.new ≡ range_after (range_answer (given_sharding sharding) index.now «data».now start end) length.old }
{
    coronagamba::pairs::coronagamba_pair_range(
        sharding, index, data, start, end, file, place, length,
    )
}

#[unsafe(no_mangle)]
pub extern "C" fn coronagamba_index_name(
    sharding: CSharding,
    shard: u64,
    out: &mut [u8],
    length: &mut u64,
) -> u64
    ensures answer { result ≡ word_of (written_result (file_name_answer Index (given_sharding sharding) shard out.old)) }
    ensures out { out.new ≡ file_name_left Index (given_sharding sharding) shard out.old }
    ensures length { length.new ≡ length_after (file_name_answer Index (given_sharding sharding) shard out.old) length.old }
{
    coronagamba::pairs::coronagamba_index_name(sharding, shard, out, length)
}

#[unsafe(no_mangle)]
pub extern "C" fn coronagamba_data_name(
    sharding: CSharding,
    shard: u64,
    out: &mut [u8],
    length: &mut u64,
) -> u64
    ensures answer { result ≡ word_of (written_result (file_name_answer Data (given_sharding sharding) shard out.old)) }
    ensures out { out.new ≡ file_name_left Data (given_sharding sharding) shard out.old }
    ensures length { length.new ≡ length_after (file_name_answer Data (given_sharding sharding) shard out.old) length.old }
{
    coronagamba::pairs::coronagamba_data_name(sharding, shard, out, length)
}
