// Volumes cut into chunks: the grid of cells.
pub mod inner;
pub mod sizes;

pub use sizes::grid_of;

// How far something reaches along each axis, in voxels or in cells.
#[repr(C)]
#[derive(Clone, Copy, PartialEq, Eq)]
pub struct Extents {
    pub x: u32,
    pub y: u32,
    pub z: u32,
}

// Where a volume's first voxel lies.
#[repr(C)]
#[derive(Clone, Copy)]
pub struct Offset {
    pub x: i32,
    pub y: i32,
    pub z: i32,
}

// A cell, by its coordinates in the grid.
#[repr(C)]
#[derive(Clone, Copy)]
pub struct Cell {
    pub x: u32,
    pub y: u32,
    pub z: u32,
}

// A volume: its size and its chunks' size in voxels, and where its first voxel lies.
#[repr(C)]
#[derive(Clone, Copy)]
pub struct Volume {
    pub size: Extents,
    pub chunk: Extents,
    pub offset: Offset,
}
