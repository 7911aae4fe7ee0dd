// The answer word of an answer of the library, and what it writes to the lent numbers.

ghost use Rattle.std.specs.Prelude.{◌≡◌, ℕ, ◌+◌, ◌<◌};
ghost use Rattle.shard.specs.declared.CheckAnswer.TheVariants.{Faulty};
ghost use Rattle.lookup.specs.declared.id_search.LookupAnswer.TheVariants.{Faulty as FaultFound};
ghost use Rattle.refusal.specs.declared.CountAnswer.TheVariants.{Faulty as FaultCounted};
ghost use Rattle.shard.specs.File.{check_result};
ghost use Rattle.refusal.specs.Result.{count_result, written_result};
ghost use Rattle.lookup.specs.Find.{lookup_result};
ghost use Rattle.coronagamba.specs.word.Word.{length_after, word_of};
ghost use Rattle.coronagamba.specs.Shards.{start_after, size_after, count_after};

use crate::word::{fault_word, position_word};
use lookup::LookupAnswer;
use refusal::{CountAnswer, Refusal};
use shard::CheckAnswer;

// A length is written, or the word is the refusal.
pub fn put_length(answer: Result<usize, Refusal>, length: &mut u64) -> u64
    ensures word { result ≡ word_of (written_result answer) }
    ensures length { length.new ≡ length_after answer length.old }
{
    match answer {
        Ok(n) => {
            *length = n as u64;
            0
        }
        Err(refusal) => refusal.number() as u64,
    }
}

// A fault's minishard and position stand beside its number.
pub fn check_word(answer: CheckAnswer) -> u64
    requires { (k m p : ℕ) → answer ≡ Faulty k m p → (m + 1 < 16777216) × (p + 1 < 4294967296) }
    ensures { result ≡ word_of (check_result answer) }
{
    match answer {
        CheckAnswer::Sound => 0,
        CheckAnswer::Refused(refusal) => refusal as u64,
        CheckAnswer::Faulty {
            number: refusal,
            minishard,
            position,
        } => fault_word(refusal, minishard, position),
    }
}

// Where the bytes begin and how many they are, or the fault with its position.
pub fn put_found(answer: LookupAnswer, start: &mut u64, length: &mut u64) -> u64
    requires { (k p : ℕ) → answer ≡ FaultFound k p → p + 1 < 4294967296 }
    ensures word { result ≡ word_of (lookup_result answer) }
    ensures start { start.new ≡ start_after answer start.old }
    ensures length { length.new ≡ size_after answer length.old }
{
    match answer {
        LookupAnswer::Found {
            start: begin,
            length: bytes,
        } => {
            *start = begin as u64;
            *length = bytes as u64;
            0
        }
        LookupAnswer::Refused(refusal) => refusal as u64,
        LookupAnswer::Faulty {
            number: refusal,
            position,
        } => position_word(refusal, position),
    }
}

// How many there are, or the fault with its position.
pub fn put_count(answer: CountAnswer, count: &mut u64) -> u64
    requires { (k p : ℕ) → answer ≡ FaultCounted k p → p + 1 < 4294967296 }
    ensures word { result ≡ word_of (count_result answer) }
    ensures count { count.new ≡ count_after answer count.old }
{
    match answer {
        CountAnswer::Count(n) => {
            *count = n as u64;
            0
        }
        CountAnswer::Refused(refusal) => refusal as u64,
        CountAnswer::Faulty {
            number: refusal,
            position,
        } => position_word(refusal, position),
    }
}
