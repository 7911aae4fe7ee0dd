// Where each cell of a volume lies, in voxels.

ghost use Rattle.std.specs.Prelude.{◌≡◌, ◌+◌, ◌*◌, ◌^◌, ◌<◌, min, pos, ◌+ℤ◌};
ghost use Rattle.morton.specs.bounds.Bounds.{cell_begin, cell_end, begin_point, end_point, BeginsInside};
ghost use Rattle.morton.specs.bounds.Answers.{bounds_answer};

use crate::grid::{Cell, Volume, inner};
use refusal::Refusal;

// A place in voxels.
#[repr(C)]
#[derive(Clone, Copy)]
pub struct Point {
    pub x: i64,
    pub y: i64,
    pub z: i64,
}

// From begin up to end, end excluded on each axis.
#[derive(Clone, Copy)]
pub struct Bounds {
    pub begin: Point,
    pub end: Point,
}

// `by` past the offset.
fn past(offset: i32, by: u64) -> i64
    requires { by < 2 ^ 32 }
    ensures { result ≡ offset +ℤ pos by }
{
    offset as i64 + by as i64
}

// Where cell g of an axis begins.
fn begin_of(offset: i32, size: u32, chunk: u32, g: u32) -> i64
    requires { g * chunk < size }
    ensures { result ≡ cell_begin offset chunk g }
{
    past(offset, g as u64 * chunk as u64)
}

// How far from the offset it reaches: the last one is cut off.
fn reach(size: u32, chunk: u32, g: u32) -> u64
    requires { g * chunk < size }
    ensures { result ≡ min ((g + 1) * chunk) size }
{
    let full = g as u64 * chunk as u64 + chunk as u64;
    full.min(size as u64)
}

// Where it ends.
fn end_of(offset: i32, size: u32, chunk: u32, g: u32) -> i64
    requires { g * chunk < size }
    ensures { result ≡ cell_end offset size chunk g }
{
    past(offset, reach(size, chunk, g))
}

fn begin_point(volume: Volume, cell: Cell) -> Point
    requires { BeginsInside volume cell }
    ensures { result ≡ begin_point volume cell }
{
    let size = volume.size;
    let chunk = volume.chunk;
    let offset = volume.offset;
    Point {
        x: begin_of(offset.x, size.x, chunk.x, cell.x),
        y: begin_of(offset.y, size.y, chunk.y, cell.y),
        z: begin_of(offset.z, size.z, chunk.z, cell.z),
    }
}

fn end_point(volume: Volume, cell: Cell) -> Point
    requires { BeginsInside volume cell }
    ensures { result ≡ end_point volume cell }
{
    let size = volume.size;
    let chunk = volume.chunk;
    let offset = volume.offset;
    Point {
        x: end_of(offset.x, size.x, chunk.x, cell.x),
        y: end_of(offset.y, size.y, chunk.y, cell.y),
        z: end_of(offset.z, size.z, chunk.z, cell.z),
    }
}

// Where a cell begins and ends, or 2 where there is no such cell.
pub fn bounds_of(volume: Volume, cell: Cell) -> Result<Bounds, Refusal>
    ensures answer { result ≡ bounds_answer volume cell }
{
    if inner::zero_extent(volume) {
        return Err(Refusal::NoSuchCell);
    }
    if !inner::inside(inner::grid(volume), cell) {
        return Err(Refusal::NoSuchCell);
    }
    let begin = begin_point(volume, cell);
    let end = end_point(volume, cell);
    Ok(Bounds { begin, end })
}
