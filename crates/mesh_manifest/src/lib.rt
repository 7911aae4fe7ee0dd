// The manifest of a multi-resolution mesh: its check, its header and fields, its nodes and their corners.
#![tactic(auto)]

pub mod corners;
mod field_kinds;
pub mod fragment_sums;
pub mod judge;
pub mod layout;
pub mod level;
pub mod node_numbers;
pub mod nodes;
pub mod reals;
pub mod sound;
mod tests;
pub mod zorder;

ghost use Rattle.std.specs.Prelude.{◌≡◌};
ghost use Rattle.mesh_manifest.specs.sound.Verdict.{manifest_answer};
ghost use Rattle.mesh_manifest.specs.Fields.{header_answer, field_answer};

pub use corners::corners_of;
pub use level::nodes_of;
pub use nodes::node_of;
use refusal::Refusal;

// Chunk shape and grid origin.
#[derive(Clone, Copy)]
pub struct Header {
    pub shape_x: f32,
    pub shape_y: f32,
    pub shape_z: f32,
    pub origin_x: f32,
    pub origin_y: f32,
    pub origin_z: f32,
}

// One 4-byte item, by its kind.
#[derive(Clone, Copy)]
pub enum Field {
    Real(f32),
    Whole(u32),
}

// Whether the bytes are a manifest: sound, or the first of the refusals 15, 16, 17.
pub fn check_manifest(bytes: &[u8]) -> Result<(), Refusal>
    ensures answer { result ≡ manifest_answer bytes.now }
{
    judge::judge(bytes)
}

// Chunk shape and grid origin.
pub fn header_of(bytes: &[u8]) -> Result<Header, Refusal>
    ensures answer { result ≡ header_answer bytes.now }
{
    judge::judge(bytes)?;
    Ok(judge::header(bytes))
}

// The field of that number, counted from 0 in file order; 18 where there is none.
pub fn field_of(bytes: &[u8], number: u32) -> Result<Field, Refusal>
    ensures answer { result ≡ field_answer bytes.now number }
{
    judge::judge(bytes)?;
    let i = number as usize;
    if i >= bytes.len() / 4 {
        return Err(Refusal::NoSuchNode);
    }
    Ok(field_kinds::field(bytes, i))
}
