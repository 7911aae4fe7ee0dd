// Whether each voxel of a packed block has a label.

ghost use Rattle.std.specs.Prelude.{◌≡◌, ◌+◌, ◌/◌, ◌<◌};
ghost use Rattle.compressed_segmentation.specs.Layout.{table_in, width_in};
ghost use Rattle.compressed_segmentation.specs.Labels.{label_words};
ghost use Rattle.compressed_segmentation.specs.block.Checks.{Reached, whole_entries_of, row_refusal, layer_refusal, voxels_refusal};

use crate::block::{Block, Run, is_reached, whole_entries};
use crate::packed_runs::run_refusal;
use crate::packed_values::{linear, two_to};
use morton::grid::Extents;

// A block whose packed words are whole, of this size, as much of it as lies inside the extents. `limit` entries of its table are whole.
#[derive(Clone, Copy)]
struct PackedBlock<'a> {
    chunk: &'a [u8],
    block: Block,
    size: Extents,
    inside: Extents,
    limit: u64,
    ghost reached: { Reached chunk.now block.start block.first block.second size inside },
    ghost some: { 0 < inside.x },
    ghost limit_value: { limit ≡ whole_entries_of chunk.now (label_words block.wide) (block.start + table_in block.first) },
}

impl<'a> PackedBlock<'a> {
    // Row (v, w) of the block.
    fn row_refusal(self, w: u32, v: u32) -> u8
        requires { (w < self.inside.z) × (v < self.inside.y) }
        ensures { result ≡ row_refusal self.entry.chunk.now (label_words self.entry.block.wide) self.entry.block.start self.entry.block.first self.entry.block.second self.entry.size self.entry.inside w v }
    {
        let run = Run {
            step: self.size.x,
            high: linear(v, self.size.y, w),
            count: self.inside.x,
        };
        run_refusal(self.chunk, self.block, run, self.limit)
    }

    fn layer_refusal(self, w: u32) -> u8
        requires { w < self.inside.z }
        ensures { result ≡ layer_refusal self.entry.chunk.now (label_words self.entry.block.wide) self.entry.block.start self.entry.block.first self.entry.block.second self.entry.size self.entry.inside w }
    {
        for v in 0..self.inside.y {
            let k = self.row_refusal(w, v);
            if 0 < k {
                return k;
            }
        }
        0
    }

    fn voxels_refusal(self) -> u8
        ensures { result ≡ voxels_refusal self.entry.chunk.now (label_words self.entry.block.wide) self.entry.block.start self.entry.block.first self.entry.block.second self.entry.size self.entry.inside }
    {
        for w in 0..self.inside.z {
            let k = self.layer_refusal(w);
            if 0 < k {
                return k;
            }
        }
        0
    }
}

// Where all entries that values of this width could name are whole, none need be asked for.
pub fn packed_refusal(chunk: &[u8], block: Block, size: Extents, inside: Extents) -> u8
    requires first_nonzero { (0 < width_in block.first) × (0 < size.x) × (0 < inside.x) × (0 < inside.y) × (0 < inside.z) }
    ensures { result ≡ voxels_refusal chunk.now (label_words block.wide) block.start block.first block.second size inside }
{
    if !is_reached(chunk, block, size, inside) {
        return 28;
    }
    let limit = whole_entries(chunk, block.wide, block.start + block.first % 16777216);
    if two_to(block.first / 16777216) <= limit {
        return 0;
    }
    let packed = PackedBlock {
        chunk,
        block,
        size,
        inside,
        limit,
    };
    packed.voxels_refusal()
}
