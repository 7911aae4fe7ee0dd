// Whether each voxel of a run of packed values has a label.

ghost use Rattle.std.specs.Prelude.{◌≡◌, ◌+◌, ◌*◌, ◌/◌, ◌<◌, ◌^◌};
ghost use Rattle.compressed_segmentation.specs.Layout.{table_in};
ghost use Rattle.compressed_segmentation.specs.Labels.{label_words};
ghost use Rattle.compressed_segmentation.specs.block.Checks.{Packed, whole_entries_of, run_refusal, greatest};

use crate::block::{Block, Run};
use crate::packed_values::{bits, word_at};

// A run of voxels, numbered from step * high on. `from` is the word, and `start` the voxel counted from it, at which it begins. A value is
// refused where its entry is none of the whole ones. The first voxel that is refused decides, here and in `packed_block`: each number is 0 or 28.
pub fn run_refusal(chunk: &[u8], block: Block, run: Run, limit: u64) -> u8
    requires limit_value { limit ≡ whole_entries_of chunk.now (label_words block.wide) (block.start + table_in block.first) }
    requires packed { Packed chunk.now block.start block.first block.second (run.step * run.high) run.count }
    ensures { result ≡ greatest (run_refusal chunk.now (label_words block.wide) block.start block.first block.second (run.step * run.high)) run.count }
{
    let width = block.first / 16777216;
    let per = 32 / width;
    let from = block.start + block.second + run.step as u64 * (run.high / per);
    let start = run.step as u64 * (run.high % per);
    for u in 0..run.count {
        let b = (start + u as u64) * width;
        let v = bits(word_at(chunk, from + b / 32), b % 32, width);
        if limit <= v {
            return 28;
        }
    }
    0
}
