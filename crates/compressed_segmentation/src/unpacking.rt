// The labels inside a chunk, in the compressed segmentation encoding: a whole chunk unpacked to the raw form.
mod raw;

ghost use Rattle.std.specs.Prelude.{◌≡◌};
ghost use Rattle.compressed_segmentation.specs.raw_form.Raw.{length_answer, unpack_answer, unpack_left};

use crate::Shape;
use crate::raw_form::{all_bytes, has_room};
use crate::readable::inner::judge;
use crate::shape_tests::{VoxelShape, has_none};
use refusal::Refusal;

// The whole chunk in the raw form, at the front of `out`, and its length: 2 where there is no voxel, 29 where asking for some voxel
// gives it, else 28 where asking for some voxel gives it, 13 where the raw form does not fit.
pub fn unpack(chunk: &[u8], shape: Shape, out: &mut [u8]) -> Result<usize, Refusal>
    ensures answer { result ≡ unpack_answer chunk.now shape out.old }
    ensures out { out.new ≡ unpack_left chunk.now shape out.old }
{
    if has_none(shape) {
        return Err(Refusal::NoSuchCell);
    }
    let voxels = VoxelShape { shape };
    judge(chunk, voxels)?;
    if !has_room(voxels, out.len()) {
        return Err(Refusal::NoRoom);
    }
    Ok(raw::put_all(chunk, voxels, out))
}

// How many bytes the raw form of a chunk has, whatever the chunk holds: 2 where there is no voxel, 13 where the number does not fit 64 bits.
pub fn unpacked_length(shape: Shape) -> Result<usize, Refusal>
    ensures answer { result ≡ length_answer shape }
{
    if has_none(shape) {
        return Err(Refusal::NoSuchCell);
    }
    let voxels = VoxelShape { shape };
    if !has_room(voxels, 18446744073709551615) {
        return Err(Refusal::NoRoom);
    }
    Ok(all_bytes(voxels))
}
