// Settling a shard of two parts that passed the check.

ghost use Rattle.std.specs.Prelude.{◌≡◌};
ghost use Rattle.unlisted.specs.stretches.Reading.{RangedShard};
ghost use Rattle.settle.specs.length.Settleable.{SettleableShard};
ghost use Rattle.settle.specs.answers.Answers.{loses_bytes, length_in, settle_in, left_in};

use crate::length::form_length;
use crate::writing::settle_parts;
use refusal::Refusal;
use shard::lengths::MOST_SHARD_BYTES;
use sharding::Sharding;
use unlisted::counting::unlisted;

// ---- a shard of two parts that passed the check

// Whether bytes would be lost that the caller does not ask to drop. They are counted only then.
#[tactic(auto, using(crate::proofs::two_parts::WriteAnswers::losing))]
fn loses_bytes(spec: Sharding, index: &[u8], data: &[u8], dropping: bool) -> bool
    requires { RangedShard spec index.now «data».now }
    ensures { result ≡ loses_bytes spec index.now «data».now dropping }
{
    if dropping {
        return false;
    }
    0 < unlisted(spec, index, data)
}

// The length of its settled form, or refusal 22 or 13.
pub fn length_answer(
    spec: Sharding,
    index: &[u8],
    data: &[u8],
    dropping: bool,
) -> Result<usize, Refusal>
    requires { SettleableShard spec index.now «data».now × RangedShard spec index.now «data».now }
    ensures { result ≡ length_in spec index.now «data».now dropping }
{
    if loses_bytes(spec, index, data, dropping) {
        return Err(Refusal::UnlistedBytes);
    }
    let len = form_length(spec, index, data);
    if MOST_SHARD_BYTES < len {
        return Err(Refusal::NoRoom);
    }
    Ok(len)
}

// Its settled form at the front of `out`, or refusal 22 or 13, decided before the first byte is written.
pub fn settle_answer(
    spec: Sharding,
    index: &[u8],
    data: &[u8],
    dropping: bool,
    out: &mut [u8],
) -> Result<usize, Refusal>
    requires { SettleableShard spec index.now «data».now × RangedShard spec index.now «data».now }
    ensures value { result ≡ settle_in spec index.now «data».now dropping out.old }
    ensures out_after { out.new ≡ left_in spec index.now «data».now dropping out.old }
{
    if loses_bytes(spec, index, data, dropping) {
        return Err(Refusal::UnlistedBytes);
    }
    let len = form_length(spec, index, data);
    if MOST_SHARD_BYTES < len {
        return Err(Refusal::NoRoom);
    }
    if out.len() < len {
        return Err(Refusal::NoRoom);
    }
    let written = settle_parts(spec, index, data, out);
    Ok(written)
}
