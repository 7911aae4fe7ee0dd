// The cells of each axis that share a voxel with the box.

ghost use Rattle.std.specs.Prelude.{◌≡◌, false, ◌<◌};
ghost use Rattle.morton.specs.grid.Grid.{zero_extent};
ghost use Rattle.cover.specs.overlap.Marked.{before, Spans, Whole};

use crate::overlap::{Along, Part};
use morton::bounds::Point;
use morton::grid::Volume;

// How many of an axis' voxels lie before a place.
fn voxels_before(offset: i32, size: u32, place: i64) -> u32
    ensures { result ≡ before offset size place }
{
    let begin = offset as i64;
    if place <= begin {
        return 0;
    }
    if begin + size as i64 <= place {
        return size;
    }
    (place - begin) as u32
}

// The cells of one axis that share a place with the box.
fn span(offset: i32, size: u32, chunk: u32, lower: i64, upper: i64) -> Along
    requires { 0 < chunk }
    ensures { Spans offset size chunk lower upper result }
{
    let bits = morton::axis::axis_bits(morton::grid::inner::grid_size(size, chunk));
    let begin = voxels_before(offset, size, lower);
    let end = voxels_before(offset, size, upper);
    if end <= begin {
        return Along {
            bits,
            from: 0,
            to: 0,
        };
    }
    Along {
        bits,
        from: begin / chunk,
        to: morton::grid::inner::grid_size(end, chunk),
    }
}

// The whole grid, its cells that meet the box marked.
pub fn whole(volume: Volume, lower: Point, upper: Point) -> Part
    requires { zero_extent volume ≡ false }
    ensures { Whole volume lower upper result }
{
    let size = volume.size;
    let chunk = volume.chunk;
    let offset = volume.offset;
    Part {
        x: span(offset.x, size.x, chunk.x, lower.x, upper.x),
        y: span(offset.y, size.y, chunk.y, lower.y, upper.y),
        z: span(offset.z, size.z, chunk.z, lower.z, upper.z),
    }
}
