// Writing a row of voxels in the raw form, block by block.

ghost use Rattle.std.specs.Prelude.{◌≡◌, ◌+◌, ◌*◌, ◌/◌, ◌<◌, ◌≤◌, length};
ghost use Rattle.endian.specs.Place.{paste};
ghost use Rattle.compressed_segmentation.specs.Layout.{across};
ghost use Rattle.compressed_segmentation.specs.raw_form.Raw.{label_bytes, raw_row};
ghost use Rattle.compressed_segmentation.specs.block.Checks.{span};
ghost use Rattle.compressed_segmentation.specs.raw_form.Writing.{Row, HeadersAt, raw_run, row_bytes, place_row};

use crate::Shape;
use crate::block::{Block, Run};
use crate::label_runs::put_run;
use crate::packed_values::{linear, word_at};
use crate::readable::inner::span_of;
use morton::grid::inner::grid_size;

// A row of voxels along x, of a chunk in which each voxel has a label.
#[derive(Clone, Copy)]
pub struct VoxelRow<'a> {
    pub chunk: &'a [u8],
    pub shape: Shape,
    pub c: u32,
    pub z: u32,
    pub y: u32,
    pub ghost row: { Row chunk.now shape c z y },
}

impl<'a> VoxelRow<'a> {
    // How many blocks it runs through.
    #[tactic(auto, using(crate::proofs::Shapes::positive))]
    fn across(self) -> u32
        ensures { result ≡ across self.entry.shape }
    {
        grid_size(self.shape.extents.x, self.shape.block.x)
    }

    // Which row of each of these blocks it is.
    #[tactic(auto, using(crate::proofs::Shapes::positive))]
    fn place(self) -> u64
        ensures { result ≡ place_row self.entry.shape self.entry.z self.entry.y }
    {
        let size = self.shape.block;
        linear(self.y % size.y, size.y, self.z % size.z)
    }

    // The word at which the headers of the row's blocks begin: they follow one another.
    #[tactic(auto, using(crate::proofs::Shapes::positive))]
    fn headers(self) -> u64
        ensures { HeadersAt self.entry.chunk.now self.entry.shape self.entry.c self.entry.z self.entry.y result }
    {
        let size = self.shape.block;
        let down = grid_size(self.shape.extents.y, size.y);
        let row = linear(self.y / size.y, down, self.z / size.z);
        word_at(self.chunk, self.c as u64) + 2 * (self.across() as u64 * row)
    }

    // The row's part in block i.
    fn put_block(self, headers: u64, high: u64, i: u32, out: &mut [u8], at: usize) -> usize
        requires headers_at { HeadersAt self.chunk.now self.shape self.c self.z self.y headers }
        requires high_value { (high ≡ place_row self.shape self.z self.y) × (i < across self.shape) }
        requires shape_in_bounds { at + span self.shape.extents.x self.shape.block.x i * label_bytes self.shape ≤ length out.old }
        ensures value { result ≡ at + span self.entry.shape.extents.x self.entry.shape.block.x i * label_bytes self.entry.shape }
        ensures out_after { out.new ≡ paste at (raw_run self.entry.chunk.now self.entry.shape self.entry.c self.entry.z self.entry.y i) out.old }
    {
        let size = self.shape.block;
        let h = headers + 2 * i as u64;
        let start = word_at(self.chunk, self.c as u64);
        let first = word_at(self.chunk, h);
        let second = word_at(self.chunk, h + 1);
        let block = Block {
            wide: self.shape.wide,
            start,
            first,
            second,
        };
        let count = span_of(self.shape.extents.x, size.x, i);
        let run = Run {
            step: size.x,
            high,
            count,
        };
        put_run(self.chunk, block, run, out, at)
    }

    // The whole row, block by block.
    pub fn put(self, out: &mut [u8], at: usize) -> usize
        requires shape_in_bounds { at + row_bytes self.shape ≤ length out.old }
        ensures value { result ≡ at + row_bytes self.entry.shape }
        ensures out_after { out.new ≡ paste at (raw_row self.entry.chunk.now self.entry.shape self.entry.c self.entry.z self.entry.y) out.old }
    {
        let across = self.across();
        let high = self.place();
        let headers = self.headers();
        let mut p = at;
        for i in 0..across {
            p = self.put_block(headers, high, i, out, p);
        }
        p
    }
}
