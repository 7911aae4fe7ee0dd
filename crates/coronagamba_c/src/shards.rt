// Shards: lookup, fragments, the check, listings, unlisted bytes, settling.
// Made by ./interface: change crates/coronagamba, then run it.

ghost use Rattle.std.specs.Prelude.{◌≡◌};
ghost use Rattle.shard.specs.File.{check_answer, check_result};
ghost use Rattle.lookup.specs.Find.{lookup_answer, lookup_result};
ghost use Rattle.lookup.specs.fragments.Fragment.{fragment_answer};
ghost use Rattle.lookup.specs.listings.Listing.{count_answer, listing_answer, listing_left};
ghost use Rattle.unlisted.specs.Answers.{unlisted_answer};
ghost use Rattle.settle.specs.answers.Answers.{length_answer, settle_answer, settle_left};
ghost use Rattle.refusal.specs.Result.{count_result};
ghost use Rattle.coronagamba.specs.Specification.{given_sharding};
ghost use Rattle.coronagamba.specs.word.Word.{asks_to_drop, word_of};
ghost use Rattle.coronagamba.specs.Shards.{start_after, size_after, count_after};

use coronagamba::CSharding;

#[unsafe(no_mangle)]
pub extern "C" fn coronagamba_lookup(
    sharding: CSharding,
    shard: u64,
    file: &[u8],
    id: u64,
    start: &mut u64,
    length: &mut u64,
) -> u64
    ensures answer { result ≡ word_of (lookup_result (lookup_answer (given_sharding sharding) shard file.now id)) }
    ensures start { start.new ≡ start_after (lookup_answer (given_sharding sharding) shard file.now id) start.old }
    ensures length { length.new ≡ size_after (lookup_answer (given_sharding sharding) shard file.now id) length.old }
{
    coronagamba::shards::coronagamba_lookup(sharding, shard, file, id, start, length)
}

#[unsafe(no_mangle)]
pub extern "C" fn coronagamba_fragment(
    sharding: CSharding,
    shard: u64,
    file: &[u8],
    id: u64,
    level: u32,
    node: u32,
    start: &mut u64,
    length: &mut u64,
) -> u64
    ensures answer { result ≡ word_of (lookup_result (fragment_answer (given_sharding sharding) shard file.now id level node)) }
    ensures start { start.new ≡ start_after (fragment_answer (given_sharding sharding) shard file.now id level node) start.old }
    ensures length { length.new ≡ size_after (fragment_answer (given_sharding sharding) shard file.now id level node) length.old }
{
    coronagamba::shards::coronagamba_fragment(sharding, shard, file, id, level, node, start, length)
}

#[unsafe(no_mangle)]
pub extern "C" fn coronagamba_check(sharding: CSharding, shard: u64, file: &[u8]) -> u64
    ensures answer { result ≡ word_of (check_result (check_answer (given_sharding sharding) shard file.now)) }
{
    coronagamba::shards::coronagamba_check(sharding, shard, file)
}

#[unsafe(no_mangle)]
pub extern "C" fn coronagamba_listed_count(
    sharding: CSharding,
    shard: u64,
    file: &[u8],
    minishard: u64,
    chunks: &mut u64,
) -> u64
    ensures answer { result ≡ word_of (count_result (count_answer (given_sharding sharding) shard file.now minishard)) }
    ensures chunks { chunks.new ≡ count_after (count_answer (given_sharding sharding) shard file.now minishard) chunks.old }
{
    coronagamba::shards::coronagamba_listed_count(sharding, shard, file, minishard, chunks)
}

#[unsafe(no_mangle)]
pub extern "C" fn coronagamba_listing(
    sharding: CSharding,
    shard: u64,
    file: &[u8],
    minishard: u64,
    out: &mut [u64],
    length: &mut u64,
) -> u64
    ensures answer { result ≡ word_of (count_result (listing_answer (given_sharding sharding) shard file.now minishard out.old)) }
    ensures out { out.new ≡ listing_left (given_sharding sharding) shard file.now minishard out.old }
    ensures length { length.new ≡ count_after (listing_answer (given_sharding sharding) shard file.now minishard out.old) length.old }
{
    coronagamba::shards::coronagamba_listing(sharding, shard, file, minishard, out, length)
}

#[unsafe(no_mangle)]
pub extern "C" fn coronagamba_unlisted(
    sharding: CSharding,
    shard: u64,
    file: &[u8],
    bytes: &mut u64,
) -> u64
    ensures answer { result ≡ word_of (count_result (unlisted_answer (given_sharding sharding) shard file.now)) }
    ensures bytes { bytes.new ≡ count_after (unlisted_answer (given_sharding sharding) shard file.now) bytes.old }
{
    coronagamba::shards::coronagamba_unlisted(sharding, shard, file, bytes)
}

#[unsafe(no_mangle)]
pub extern "C" fn coronagamba_settled_length(
    sharding: CSharding,
    shard: u64,
    file: &[u8],
    drop_unlisted: u64,
    length: &mut u64,
) -> u64
    ensures answer { result ≡ word_of (count_result (length_answer (given_sharding sharding) shard file.now (asks_to_drop drop_unlisted))) }
    ensures length { length.new ≡ count_after (length_answer (given_sharding sharding) shard file.now (asks_to_drop drop_unlisted)) length.old }
{
    coronagamba::shards::coronagamba_settled_length(sharding, shard, file, drop_unlisted, length)
}

#[unsafe(no_mangle)]
pub extern "C" fn coronagamba_settle(
    sharding: CSharding,
    shard: u64,
    file: &[u8],
    drop_unlisted: u64,
    out: &mut [u8],
    length: &mut u64,
) -> u64
    ensures answer { result ≡ word_of (count_result (settle_answer (given_sharding sharding) shard file.now (asks_to_drop drop_unlisted) out.old)) }
    ensures out { out.new ≡ settle_left (given_sharding sharding) shard file.now (asks_to_drop drop_unlisted) out.old }
    ensures length { length.new ≡ count_after (settle_answer (given_sharding sharding) shard file.now (asks_to_drop drop_unlisted) out.old) length.old }
{
    coronagamba::shards::coronagamba_settle(sharding, shard, file, drop_unlisted, out, length)
}
