// Shards of the earlier edition, an index file and a data file each.

ghost use Rattle.std.specs.Prelude.{◌≡◌};
ghost use Rattle.split_shard.specs.seam.Range.{range_answer, range_result};
ghost use Rattle.split_shard.specs.Answers.{pair_check, pair_lookup, pair_fragment};
ghost use Rattle.split_shard.specs.form.Answers.{pair_count, pair_listing, pair_listing_left, pair_unlisted, pair_length, pair_settle, pair_settle_left};
ghost use Rattle.names.specs.Shards.{file_name_answer, file_name_left};
ghost use Rattle.names.specs.declared.FileKind.TheVariants.{Index, Data};
ghost use Rattle.shard.specs.File.{check_result};
ghost use Rattle.refusal.specs.Result.{count_result, written_result};
ghost use Rattle.lookup.specs.Find.{lookup_result};
ghost use Rattle.coronagamba.specs.Specification.{given_sharding};
ghost use Rattle.coronagamba.specs.word.Word.{length_after, asks_to_drop, word_of};
ghost use Rattle.coronagamba.specs.Shards.{start_after, size_after, count_after};
ghost use Rattle.coronagamba.specs.Pairs.{file_after, place_after, range_after};

use crate::answers::{check_word, put_count, put_found, put_length};
use crate::numbers::{CSharding, sharding_of};
use crate::word::asks_to_drop;
use split_shard::held_range::RangeAnswer;

// coronagamba_check of a pair: whether it is sound, as one file. Writes nothing. The position is that
// in the joined file.
// Refusals: 1, 5, 23, 6, 7 to 11, 15 to 17 (mesh), 21 (mesh) with the minishard and the position
pub fn coronagamba_pair_check(sharding: CSharding, shard: u64, index: &[u8], data: &[u8]) -> u64
    ensures answer { result ≡ word_of (check_result (pair_check (given_sharding sharding) shard index.now «data».now)) }
{
    let answer = split_shard::check(sharding_of(sharding), shard, index, data);
    check_word(answer)
}

// coronagamba_lookup of a pair: where the chunk of an id lies. Writes where it begins, counted from
// the index file's first byte, to `start`, and its number of bytes to `length`. A chunk lies in the
// data file: there it begins as many bytes earlier as the index file has.
// Refusals: 1, 5, 23, 6, 7 to 11, 15 to 17 (mesh), 21 (mesh) of the id's minishard with the position,
// 12
pub fn coronagamba_pair_lookup(
    sharding: CSharding,
    shard: u64,
    index: &[u8],
    data: &[u8],
    id: u64,
    start: &mut u64,
    length: &mut u64,
) -> u64
    ensures answer { result ≡ word_of (lookup_result (pair_lookup (given_sharding sharding) shard index.now «data».now id)) }
    ensures start { start.new ≡ start_after (pair_lookup (given_sharding sharding) shard index.now «data».now id) start.old }
    ensures length { length.new ≡ size_after (pair_lookup (given_sharding sharding) shard index.now «data».now id) length.old }
{
    let answer = split_shard::lookup(sharding_of(sharding), shard, index, data, id);
    put_found(answer, start, length)
}

// coronagamba_fragment of a pair: where the fragment of a node lies, by the id of its manifest, its
// level and its number. Writes where it begins, counted from the index file's first byte, to `start`,
// and its number of bytes to `length`. A fragment lies in the data file.
// Refusals: 1, 5, 23, 6, 7 to 11, 15 to 17 (mesh), 21 (mesh) of the id's minishard with the position,
// 12, 18 also where the kind is volume
pub fn coronagamba_pair_fragment(
    sharding: CSharding,
    shard: u64,
    index: &[u8],
    data: &[u8],
    id: u64,
    level: u32,
    node: u32,
    start: &mut u64,
    length: &mut u64,
) -> u64
    ensures answer { result ≡ word_of (lookup_result (pair_fragment (given_sharding sharding) shard index.now «data».now id level node)) }
    ensures start { start.new ≡ start_after (pair_fragment (given_sharding sharding) shard index.now «data».now id level node) start.old }
    ensures length { length.new ≡ size_after (pair_fragment (given_sharding sharding) shard index.now «data».now id level node) length.old }
{
    let answer = split_shard::fragment(sharding_of(sharding), shard, index, data, id, level, node);
    put_found(answer, start, length)
}

// coronagamba_listed_count of a pair: how many chunks a minishard lists. Writes the number to
// `chunks`.
// Refusals: 1, 5, 33 for a minishard that is not there, 23, 6, 7 to 11, 15 to 17 (mesh), 21 (mesh)
// of that minishard with the position
pub fn coronagamba_pair_listed_count(
    sharding: CSharding,
    shard: u64,
    index: &[u8],
    data: &[u8],
    minishard: u64,
    chunks: &mut u64,
) -> u64
    ensures answer { result ≡ word_of (count_result (pair_count (given_sharding sharding) shard index.now «data».now minishard)) }
    ensures chunks { chunks.new ≡ count_after (pair_count (given_sharding sharding) shard index.now «data».now minishard) chunks.old }
{
    let answer = split_shard::listed_count(sharding_of(sharding), shard, index, data, minishard);
    put_count(answer, chunks)
}

// coronagamba_listing of a pair: the chunks that a minishard lists, in stored order. Writes three
// numbers for each to the front of `out`: id, start counted from the index file's first byte, length
// in bytes. Writes how many numbers these are, three times what coronagamba_pair_listed_count gives,
// to `length`.
// Refusals: 1, 5, 33 for a minishard that is not there, 23, 6, 7 to 11, 15 to 17 (mesh), 21 (mesh)
// of that minishard with the position, 13 where `out` has room for fewer
pub fn coronagamba_pair_listing(
    sharding: CSharding,
    shard: u64,
    index: &[u8],
    data: &[u8],
    minishard: u64,
    out: &mut [u64],
    length: &mut u64,
) -> u64
    ensures answer { result ≡ word_of (count_result (pair_listing (given_sharding sharding) shard index.now «data».now minishard out.old)) }
    ensures out { out.new ≡ pair_listing_left (given_sharding sharding) shard index.now «data».now minishard out.old }
    ensures length { length.new ≡ count_after (pair_listing (given_sharding sharding) shard index.now «data».now minishard out.old) length.old }
{
    let answer = split_shard::listing(sharding_of(sharding), shard, index, data, minishard, out);
    put_count(answer, length)
}

// coronagamba_unlisted of a pair: how many bytes are unlisted. Writes the number to `bytes`. Takes as
// much stack as coronagamba_unlisted does.
// Refusals: 1, 5, 23, 6, 7 to 11, 15 to 17 (mesh), 21 (mesh) of the first faulty minishard with the
// position
pub fn coronagamba_pair_unlisted(
    sharding: CSharding,
    shard: u64,
    index: &[u8],
    data: &[u8],
    bytes: &mut u64,
) -> u64
    ensures answer { result ≡ word_of (count_result (pair_unlisted (given_sharding sharding) shard index.now «data».now)) }
    ensures bytes { bytes.new ≡ count_after (pair_unlisted (given_sharding sharding) shard index.now «data».now) bytes.old }
{
    let answer = split_shard::unlisted_count(sharding_of(sharding), shard, index, data);
    put_count(answer, bytes)
}

// coronagamba_settled_length of a pair: how many bytes its settled form has, which is one file. Writes
// the number to `length`. A pair with unlisted bytes is refused unless `drop_unlisted` is 1; no other
// number asks to drop them.
// Refusals: 1, 5, 23, 6, 7 to 11, 15 to 17 (mesh), 21 (mesh) of the first faulty minishard with the
// position, 22 where bytes are unlisted and not dropped, 13 where the form would pass 1 GiB
pub fn coronagamba_pair_settled_length(
    sharding: CSharding,
    shard: u64,
    index: &[u8],
    data: &[u8],
    drop_unlisted: u64,
    length: &mut u64,
) -> u64
    ensures answer { result ≡ word_of (count_result (pair_length (given_sharding sharding) shard index.now «data».now (asks_to_drop drop_unlisted))) }
    ensures length { length.new ≡ count_after (pair_length (given_sharding sharding) shard index.now «data».now (asks_to_drop drop_unlisted)) length.old }
{
    let answer = split_shard::settled_length(
        sharding_of(sharding),
        shard,
        index,
        data,
        asks_to_drop(drop_unlisted),
    );
    put_count(answer, length)
}

// coronagamba_settle of a pair: its settled form, which is one file. Writes it to the front of `out`,
// which needs the room that coronagamba_pair_settled_length tells, and its number of bytes to
// `length`. Unlisted bytes are lost: a pair with some is refused unless `drop_unlisted` is 1; no
// other number asks to drop them.
// Refusals: 1, 5, 23, 6, 7 to 11, 15 to 17 (mesh), 21 (mesh) of the first faulty minishard with the
// position, 22 where bytes are unlisted and not dropped, 13 where `out` is shorter than the form or
// the form would pass 1 GiB
pub fn coronagamba_pair_settle(
    sharding: CSharding,
    shard: u64,
    index: &[u8],
    data: &[u8],
    drop_unlisted: u64,
    out: &mut [u8],
    length: &mut u64,
) -> u64
    ensures answer { result ≡ word_of (count_result (pair_settle (given_sharding sharding) shard index.now «data».now (asks_to_drop drop_unlisted) out.old)) }
    ensures out { out.new ≡ pair_settle_left (given_sharding sharding) shard index.now «data».now (asks_to_drop drop_unlisted) out.old }
    ensures length { length.new ≡ count_after (pair_settle (given_sharding sharding) shard index.now «data».now (asks_to_drop drop_unlisted) out.old) length.old }
{
    let answer = split_shard::settle(
        sharding_of(sharding),
        shard,
        index,
        data,
        asks_to_drop(drop_unlisted),
        out,
    );
    put_count(answer, length)
}

// Where the bytes of the joined file from `start` up to `end`, end excluded, are. Writes which file
// holds them to `file`: CORONAGAMBA_FILE_INDEX or CORONAGAMBA_FILE_DATA; an empty range at the seam
// is the data file's. Writes where they begin, counted from that file's first byte, to `place`, and
// their number to `length`. Judges no minishard and takes no shard number.
// Refusals: 1, 23, 6, 24
pub fn coronagamba_pair_range(
    sharding: CSharding,
    index: &[u8],
    data: &[u8],
    start: u64,
    end: u64,
    file: &mut u32,
    place: &mut u64,
    length: &mut u64,
) -> u64
    ensures answer { result ≡ word_of (range_result (range_answer (given_sharding sharding) index.now «data».now start end)) }
    ensures file { file.new ≡ file_after (range_answer (given_sharding sharding) index.now «data».now start end) file.old }
    ensures place { place.new ≡ place_after (range_answer (given_sharding sharding) index.now «data».now start end) place.old }
    ensures length { length.new ≡ range_after (range_answer (given_sharding sharding) index.now «data».now start end) length.old }
{
    match split_shard::range(sharding_of(sharding), index, data, start, end) {
        RangeAnswer::InIndex {
            start: begin,
            length: bytes,
        } => {
            *file = 0;
            *place = begin as u64;
            *length = bytes as u64;
            0
        }
        RangeAnswer::InData {
            start: begin,
            length: bytes,
        } => {
            *file = 1;
            *place = begin as u64;
            *length = bytes as u64;
            0
        }
        RangeAnswer::Refused(refusal) => refusal as u64,
    }
}

// The name of a shard's index file. Writes its ASCII bytes, at most 14 and with no 0 byte behind them,
// to the front of `out`, and their number to `length`.
// Refusals: 1, 5, 13 where `out` is shorter than the name
pub fn coronagamba_index_name(
    sharding: CSharding,
    shard: u64,
    out: &mut [u8],
    length: &mut u64,
) -> u64
    ensures answer { result ≡ word_of (written_result (file_name_answer Index (given_sharding sharding) shard out.old)) }
    ensures out { out.new ≡ file_name_left Index (given_sharding sharding) shard out.old }
    ensures length { length.new ≡ length_after (file_name_answer Index (given_sharding sharding) shard out.old) length.old }
{
    let answer = names::index_name(sharding_of(sharding), shard, out);
    put_length(answer, length)
}

// The name of its data file, at most 13 bytes, in the same way.
// Refusals: 1, 5, 13 where `out` is shorter than the name
pub fn coronagamba_data_name(
    sharding: CSharding,
    shard: u64,
    out: &mut [u8],
    length: &mut u64,
) -> u64
    ensures answer { result ≡ word_of (written_result (file_name_answer Data (given_sharding sharding) shard out.old)) }
    ensures out { out.new ≡ file_name_left Data (given_sharding sharding) shard out.old }
    ensures length { length.new ≡ length_after (file_name_answer Data (given_sharding sharding) shard out.old) length.old }
{
    let answer = names::data_name(sharding_of(sharding), shard, out);
    put_length(answer, length)
}
