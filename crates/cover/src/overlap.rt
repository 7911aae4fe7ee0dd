// Which cells of a grid share a voxel with a box: along each axis they are a run.
pub mod spans;

// Along one axis: 2 to the bits cells, of which those from `from` up to `to` are marked.
#[derive(Clone, Copy)]
pub struct Along {
    pub bits: u32,
    pub from: u32,
    pub to: u32,
}

// The same along each axis of a grid.
#[derive(Clone, Copy)]
pub struct Part {
    pub x: Along,
    pub y: Along,
    pub z: Along,
}
