// What refuses a whole chunk whose extents were tested.

ghost use Rattle.std.specs.Prelude.{◌≡◌};
ghost use Rattle.refusal.specs.Answers.{judged};
ghost use Rattle.compressed_segmentation.specs.block.Voxels.{chunk_refusal};
ghost use Rattle.compressed_segmentation.specs.block.Checks.{span};
ghost use Rattle.bitmap.specs.visited.Seen.{Blank};

use crate::packed_values::linear;
use crate::readable::blocks::blocks_refusal;
use crate::readable::headers::headers_refusal;
use crate::shape_tests::VoxelShape;
use bitmap::visited::{MAP_WORDS, clear};
use refusal::Refusal;

// How many voxels of block g along an axis lie inside the extent.
#[tactic(auto, unfolding(crate::specs::block::Checks::span))]
pub fn span_of(extent: u32, block: u32, g: u32) -> u32
    ensures { result ≡ span extent block g }
{
    let rest = u64::from(extent).saturating_sub(linear(0, block, g));
    rest.min(u64::from(block)) as u32
}

fn refusal_with(chunk: &[u8], voxels: VoxelShape, seen: &mut [u64]) -> u8
    requires { Blank seen.old }
    ensures { result ≡ chunk_refusal chunk.now voxels.shape }
{
    let k = headers_refusal(chunk, voxels, seen);
    if 0 < k {
        return k;
    }
    clear(seen);
    blocks_refusal(chunk, voxels, seen)
}

// Refuses the whole chunk by the number that some voxel of it is refused with. One map of 32 KiB serves both walks over the channels.
pub fn judge(chunk: &[u8], voxels: VoxelShape) -> Result<(), Refusal>
    ensures { result ≡ judged (chunk_refusal chunk.now voxels.shape) }
{
    let mut seen = [0u64; MAP_WORDS];
    let number = refusal_with(chunk, voxels, &mut seen);
    if number == 0 {
        return Ok(());
    }
    if number == 28 {
        return Err(Refusal::LabelsCutOff);
    }
    Err(Refusal::LabelWidth)
}
