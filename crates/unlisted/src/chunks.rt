// The chunks of a minishard one after the other, as its index tells them.
mod walk;

ghost use Rattle.std.specs.Prelude.{◌+◌, ◌*◌, ◌≤◌, length};

// Where a chunk begins in the data, and how many bytes it has.
#[derive(Clone, Copy)]
pub struct Chunk {
    pub start: u64,
    pub size: u64,
}

// The chunks that are left: their start steps and sizes stand in the data from these places on, and the chunk before them ends at `end`.
#[derive(Drop)]
pub struct Chunks<'a> {
    data: &'a [u8],
    steps: usize,
    sizes: usize,
    end: u64,
    left: usize,
    ghost steps_in: { steps + 8 * left ≤ length «data».now },
    ghost sizes_in: { sizes + 8 * left ≤ length «data».now },
}
