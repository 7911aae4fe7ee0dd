// Shards: lookup, fragments, the check, listings, unlisted bytes, settling.

ghost use Rattle.std.specs.Prelude.{◌≡◌};
ghost use Rattle.shard.specs.File.{check_answer, check_result};
ghost use Rattle.lookup.specs.Find.{lookup_answer, lookup_result};
ghost use Rattle.lookup.specs.fragments.Fragment.{fragment_answer};
ghost use Rattle.lookup.specs.listings.Listing.{count_answer, listing_answer, listing_left};
ghost use Rattle.unlisted.specs.Answers.{unlisted_answer};
ghost use Rattle.settle.specs.answers.Answers.{length_answer, settle_answer, settle_left};
ghost use Rattle.refusal.specs.Result.{count_result};
ghost use Rattle.coronagamba.specs.Specification.{given_sharding};
ghost use Rattle.coronagamba.specs.word.Word.{asks_to_drop, word_of};
ghost use Rattle.coronagamba.specs.Shards.{start_after, size_after, count_after};

use crate::answers::{check_word, put_count, put_found};
use crate::numbers::{CSharding, sharding_of};
use crate::word::asks_to_drop;

// Where the chunk of an id lies in the shard's file; in a mesh the chunk is a manifest. Writes where
// it begins, counted from the file's first byte, to `start`, and its number of bytes to `length`. Of
// the minishards it judges the id's own alone.
// Refusals: 1, 5, 6, 7 to 11, 15 to 17 (mesh), 21 (mesh) of the id's minishard with the position, 12
pub fn coronagamba_lookup(
    sharding: CSharding,
    shard: u64,
    file: &[u8],
    id: u64,
    start: &mut u64,
    length: &mut u64,
) -> u64
    ensures answer { result ≡ word_of (lookup_result (lookup_answer (given_sharding sharding) shard file.now id)) }
    ensures start { start.new ≡ start_after (lookup_answer (given_sharding sharding) shard file.now id) start.old }
    ensures length { length.new ≡ size_after (lookup_answer (given_sharding sharding) shard file.now id) length.old }
{
    let answer = lookup::lookup(sharding_of(sharding), shard, file, id);
    put_found(answer, start, length)
}

// Where the fragment of a node lies in a mesh shard's file, by the id of its manifest, its level and
// its number, both counted from 0. A manifest's fragments are the bytes right before it, as many as
// its sizes make together, one after the other in the order of its nodes. Writes where the fragment
// begins, counted from the file's first byte, to `start`, and its number of bytes to `length`. Of the
// minishards it judges the id's own alone.
// Refusals: 1, 5, 6, 7 to 11, 15 to 17 (mesh), 21 (mesh) of the id's minishard with the position, 12,
// 18 also where the kind is volume
pub fn coronagamba_fragment(
    sharding: CSharding,
    shard: u64,
    file: &[u8],
    id: u64,
    level: u32,
    node: u32,
    start: &mut u64,
    length: &mut u64,
) -> u64
    ensures answer { result ≡ word_of (lookup_result (fragment_answer (given_sharding sharding) shard file.now id level node)) }
    ensures start { start.new ≡ start_after (fragment_answer (given_sharding sharding) shard file.now id level node) start.old }
    ensures length { length.new ≡ size_after (fragment_answer (given_sharding sharding) shard file.now id level node) length.old }
{
    let answer = lookup::fragment(sharding_of(sharding), shard, file, id, level, node);
    put_found(answer, start, length)
}

// Whether the whole shard is sound; in a mesh each chunk must be a sound manifest with its fragments
// before it. Writes nothing. Where a minishard has a fault, the answer word names the first such
// minishard and the position.
// Refusals: 1, 5, 6, 7 to 11, 15 to 17 (mesh), 21 (mesh) with the minishard and the position
pub fn coronagamba_check(sharding: CSharding, shard: u64, file: &[u8]) -> u64
    ensures answer { result ≡ word_of (check_result (check_answer (given_sharding sharding) shard file.now)) }
{
    let answer = shard::check(sharding_of(sharding), shard, file);
    check_word(answer)
}

// How many chunks a minishard lists. Writes the number to `chunks`.
// Refusals: 1, 5, 33 for a minishard that is not there, 6, 7 to 11, 15 to 17 (mesh), 21 (mesh) of
// that minishard with the position
pub fn coronagamba_listed_count(
    sharding: CSharding,
    shard: u64,
    file: &[u8],
    minishard: u64,
    chunks: &mut u64,
) -> u64
    ensures answer { result ≡ word_of (count_result (count_answer (given_sharding sharding) shard file.now minishard)) }
    ensures chunks { chunks.new ≡ count_after (count_answer (given_sharding sharding) shard file.now minishard) chunks.old }
{
    let answer = lookup::listed_count(sharding_of(sharding), shard, file, minishard);
    put_count(answer, chunks)
}

// The chunks that a minishard lists, in stored order. Writes three numbers for each to the front of
// `out`: id, start counted from the file's first byte, length in bytes. Writes how many numbers
// these are, three times what coronagamba_listed_count gives, to `length`.
// Refusals: 1, 5, 33 for a minishard that is not there, 6, 7 to 11, 15 to 17 (mesh), 21 (mesh) of
// that minishard with the position, 13 where `out` has room for fewer
pub fn coronagamba_listing(
    sharding: CSharding,
    shard: u64,
    file: &[u8],
    minishard: u64,
    out: &mut [u64],
    length: &mut u64,
) -> u64
    ensures answer { result ≡ word_of (count_result (listing_answer (given_sharding sharding) shard file.now minishard out.old)) }
    ensures out { out.new ≡ listing_left (given_sharding sharding) shard file.now minishard out.old }
    ensures length { length.new ≡ count_after (listing_answer (given_sharding sharding) shard file.now minishard out.old) length.old }
{
    let answer = lookup::listing(sharding_of(sharding), shard, file, minishard, out);
    put_count(answer, length)
}

// How many bytes of a shard are unlisted: they lie past the shard index in no listed chunk, no
// fragment and no nonempty minishard index. Writes the number to `bytes`. Takes at most 512 KiB of
// stack, as no call of this library takes more.
// Refusals: 1, 5, 6, 7 to 11, 15 to 17 (mesh), 21 (mesh) of the first faulty minishard with the
// position
pub fn coronagamba_unlisted(sharding: CSharding, shard: u64, file: &[u8], bytes: &mut u64) -> u64
    ensures answer { result ≡ word_of (count_result (unlisted_answer (given_sharding sharding) shard file.now)) }
    ensures bytes { bytes.new ≡ count_after (unlisted_answer (given_sharding sharding) shard file.now) bytes.old }
{
    let answer = unlisted::unlisted_count(sharding_of(sharding), shard, file);
    put_count(answer, bytes)
}

// How many bytes a shard's settled form has. Writes the number to `length`. Unlisted bytes are not in
// it: a shard with some is refused unless `drop_unlisted` is 1; no other number asks to drop them.
// Refusals: 1, 5, 6, 7 to 11, 15 to 17 (mesh), 21 (mesh) of the first faulty minishard with the
// position, 22 where bytes are unlisted and not dropped, 13 where the form would pass 1 GiB
pub fn coronagamba_settled_length(
    sharding: CSharding,
    shard: u64,
    file: &[u8],
    drop_unlisted: u64,
    length: &mut u64,
) -> u64
    ensures answer { result ≡ word_of (count_result (length_answer (given_sharding sharding) shard file.now (asks_to_drop drop_unlisted))) }
    ensures length { length.new ≡ count_after (length_answer (given_sharding sharding) shard file.now (asks_to_drop drop_unlisted)) length.old }
{
    let answer = settle::settled_length(
        sharding_of(sharding),
        shard,
        file,
        asks_to_drop(drop_unlisted),
    );
    put_count(answer, length)
}

// A shard's settled form; in a mesh each manifest has its fragments right before it there too. Writes
// it to the front of `out`, which needs the room that coronagamba_settled_length tells, and its
// number of bytes to `length`. Unlisted bytes are lost: a shard with some is refused unless
// `drop_unlisted` is 1; no other number asks to drop them.
// Refusals: 1, 5, 6, 7 to 11, 15 to 17 (mesh), 21 (mesh) of the first faulty minishard with the
// position, 22 where bytes are unlisted and not dropped, 13 where `out` is shorter than the form or
// the form would pass 1 GiB
pub fn coronagamba_settle(
    sharding: CSharding,
    shard: u64,
    file: &[u8],
    drop_unlisted: u64,
    out: &mut [u8],
    length: &mut u64,
) -> u64
    ensures answer { result ≡ word_of (count_result (settle_answer (given_sharding sharding) shard file.now (asks_to_drop drop_unlisted) out.old)) }
    ensures out { out.new ≡ settle_left (given_sharding sharding) shard file.now (asks_to_drop drop_unlisted) out.old }
    ensures length { length.new ≡ count_after (settle_answer (given_sharding sharding) shard file.now (asks_to_drop drop_unlisted) out.old) length.old }
{
    let answer = settle::settle(
        sharding_of(sharding),
        shard,
        file,
        asks_to_drop(drop_unlisted),
        out,
    );
    put_count(answer, length)
}
