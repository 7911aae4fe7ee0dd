// A shard file's name at a place of a buffer: digits and suffix.

ghost use Rattle.std.specs.Prelude.{◌≡◌, ◌+◌, ◌≤◌, length};
ghost use Rattle.endian.specs.Place.{paste};
ghost use Rattle.refusal.specs.Buffer.{written, left_by};
ghost use Rattle.names.specs.Shards.{suffix_of, file_name, file_name_answer, file_name_left};

use crate::FileKind;
use endian;
use refusal::Refusal;
use sharding::Sharding;

// `.sha` and `rd`, `.ind` and `ex`, `.dat` and `a`, as the numbers whose bytes they are.
fn put_suffix(out: &mut [u8], at: usize, kind: FileKind)
    requires { at + length (suffix_of kind) ≤ length out.old }
    ensures { out.new ≡ paste at (suffix_of kind) out.old }
{
    match kind {
        FileKind::Shard => {
            endian::put_u32(out, at, 0x6168_732e);
            endian::put_u16(out, at + 4, 0x6472);
        }
        FileKind::Index => {
            endian::put_u32(out, at, 0x646e_692e);
            endian::put_u16(out, at + 4, 0x7865);
        }
        FileKind::Data => {
            endian::put_u32(out, at, 0x7461_642e);
            endian::put_byte(out, at + 4, b'a');
        }
    }
}

pub fn put_file_name(out: &mut [u8], at: usize, spec: Sharding, shard: u64, kind: FileKind) -> usize
    requires { at + length (file_name kind spec shard) ≤ length out.old }
    ensures value { result ≡ at + length (file_name kind spec shard) }
    ensures out_after { out.new ≡ paste at (file_name kind spec shard) out.old }
{
    let n = crate::lengths::shard_digits(spec);
    crate::digits::put_digits(out, at, 16, n, shard);
    put_suffix(out, at + n, kind);
    at + n + crate::lengths::suffix_len(kind)
}

// The name of one of a shard's files at the front of the buffer.
fn file_name(spec: Sharding, shard: u64, kind: FileKind, out: &mut [u8]) -> Result<usize, Refusal>
    ensures value { result ≡ written (file_name kind spec shard) out.old }
    ensures out_after { out.new ≡ left_by (file_name kind spec shard) out.old }
{
    if out.len() < crate::lengths::file_name_len(spec, kind) {
        return Err(Refusal::NoRoom);
    }
    Ok(put_file_name(out, 0, spec, shard, kind))
}

// The same, refused with 1 or 5 first.
pub fn name_of(spec: Sharding, shard: u64, kind: FileKind, out: &mut [u8]) -> Result<usize, Refusal>
    ensures answer { result ≡ file_name_answer kind spec shard out.old }
    ensures out { out.new ≡ file_name_left kind spec shard out.old }
{
    if !sharding::limits::is_allowed(spec) {
        return Err(Refusal::ShardingNotAllowed);
    }
    if crate::lengths::no_such_shard(spec, shard) {
        return Err(Refusal::NoSuchShard);
    }
    file_name(spec, shard, kind, out)
}
