// Mesh manifests. Reals cross the border as their bit patterns.

ghost use Rattle.std.specs.Prelude.{◌≡◌, true};
ghost use Rattle.mesh_manifest.specs.sound.Verdict.{manifest_answer, manifest_result};
ghost use Rattle.mesh_manifest.specs.Fields.{header_answer, field_answer, field_result, header_result};
ghost use Rattle.mesh_manifest.specs.nodes.Nodes.{node_answer, node_result};
ghost use Rattle.mesh_manifest.specs.level.Level.{nodes_answer, nodes_left};
ghost use Rattle.mesh_manifest.specs.corners.Boxes.{finite_corner, corners_answer, corners_result};
ghost use Rattle.refusal.specs.Result.{written_result};
ghost use Rattle.coronagamba.specs.word.Word.{length_after, word_of};
ghost use Rattle.coronagamba.specs.Manifests.{header_after, kind_after, value_after, position_after, fragment_after, bytes_after, corner_bits, near_after, far_after};

use crate::answers::put_length;
use mesh_manifest::Field;
use mesh_manifest::corners::Corner;

// Whether the bytes are a sound manifest. Writes nothing.
// Refusals: 15, 16, 17
pub fn coronagamba_manifest_check(bytes: &[u8]) -> u64
    ensures answer { result ≡ word_of (manifest_result (manifest_answer bytes.now)) }
{
    match mesh_manifest::check_manifest(bytes) {
        Ok(()) => 0,
        Err(refusal) => refusal.number() as u64,
    }
}

// The shape and the origin of a manifest. Writes the bits of six reals to `header`: the chunk shape
// along x, y and z, then the grid origin.
// Refusals: 15, 16, 17
pub fn coronagamba_manifest_header(bytes: &[u8], header: &mut [u32; 6]) -> u64
    ensures answer { result ≡ word_of (header_result (header_answer bytes.now)) }
    ensures header { header.new ≡ header_after (header_answer bytes.now) header.old }
{
    match mesh_manifest::header_of(bytes) {
        Ok(h) => {
            *header = [
                f32::to_bits(h.shape_x),
                f32::to_bits(h.shape_y),
                f32::to_bits(h.shape_z),
                f32::to_bits(h.origin_x),
                f32::to_bits(h.origin_y),
                f32::to_bits(h.origin_z),
            ];
            0
        }
        Err(refusal) => refusal.number() as u64,
    }
}

// A field of a manifest, by its number, counted from 0 in file order, one for each 4 bytes. Writes
// its kind to `kind`: CORONAGAMBA_FIELD_REAL where it is a real, CORONAGAMBA_FIELD_WHOLE where it is
// a whole number. Writes the real's bits, or the number, to `value`.
// Refusals: 15, 16, 17, 18
pub fn coronagamba_manifest_field(bytes: &[u8], number: u32, kind: &mut u32, value: &mut u32) -> u64
    ensures answer { result ≡ word_of (field_result (field_answer bytes.now number)) }
    ensures kind { kind.new ≡ kind_after (field_answer bytes.now number) kind.old }
    ensures value { value.new ≡ value_after (field_answer bytes.now number) value.old }
{
    match mesh_manifest::field_of(bytes, number) {
        Ok(Field::Real(x)) => {
            *kind = 1;
            *value = f32::to_bits(x);
            0
        }
        Ok(Field::Whole(n)) => {
            *kind = 0;
            *value = n;
            0
        }
        Err(refusal) => refusal.number() as u64,
    }
}

// A node of a level, both counted from 0. Writes its position along x, y and z to `position`, where
// its fragment starts, counted from the first fragment, to `start`, and the fragment's number of
// bytes to `size`.
// Refusals: 15, 16, 17, 18
pub fn coronagamba_manifest_node(
    bytes: &[u8],
    level: u32,
    node: u32,
    position: &mut [u32; 3],
    start: &mut u64,
    size: &mut u32,
) -> u64
    ensures answer { result ≡ word_of (node_result (node_answer bytes.now level node)) }
    ensures position { position.new ≡ position_after (node_answer bytes.now level node) position.old }
    ensures start { start.new ≡ fragment_after (node_answer bytes.now level node) start.old }
    ensures size { size.new ≡ bytes_after (node_answer bytes.now level node) size.old }
{
    match mesh_manifest::node_of(bytes, level, node) {
        Ok(n) => {
            *position = [n.x, n.y, n.z];
            *start = n.start;
            *size = n.size;
            0
        }
        Err(refusal) => refusal.number() as u64,
    }
}

// All nodes of a level, counted from 0, in node order. Writes five numbers for each to the front of
// `out`: its position along x, y and z, where its fragment starts, counted from the first fragment,
// and the fragment's number of bytes. Writes how many numbers these are to `length`. A level has
// fewer nodes than a sixteenth of the bytes.
// Refusals: 15, 16, 17, 18 where there is no such level, 13 where `out` has room for fewer
pub fn coronagamba_manifest_nodes(
    bytes: &[u8],
    level: u32,
    out: &mut [u64],
    length: &mut u64,
) -> u64
    ensures answer { result ≡ word_of (written_result (nodes_answer bytes.now level out.old)) }
    ensures out { out.new ≡ nodes_left bytes.now level out.old }
    ensures length { length.new ≡ length_after (nodes_answer bytes.now level out.old) length.old }
{
    let answer = mesh_manifest::nodes_of(bytes, level, out);
    put_length(answer, length)
}

// The patterns of a finite corner.
fn three_patterns(c: Corner) -> [u32; 3]
    requires { finite_corner c ≡ true }
    ensures { result ≡ corner_bits c }
{
    [f32::to_bits(c.x), f32::to_bits(c.y), f32::to_bits(c.z)]
}

// The corners of a node's box, level and node counted from 0. Writes the bits of origin + (position
// x shape) x 2^level along x, y and z to `near_corner`, and of that + shape x 2^level to
// `far_corner`, each operation rounded once to a float. They are computed in the floating-point
// environment that a C program starts with: round to nearest, subnormal numbers kept, no traps.
// Refusals: 15, 16, 17, 18 also where a position is 2^24 or more or a corner is not finite
pub fn coronagamba_manifest_corners(
    bytes: &[u8],
    level: u32,
    node: u32,
    near_corner: &mut [u32; 3],
    far_corner: &mut [u32; 3],
) -> u64
    ensures answer { result ≡ word_of (corners_result (corners_answer bytes.now level node)) }
    ensures near { near_corner.new ≡ near_after (corners_answer bytes.now level node) near_corner.old }
    ensures far { far_corner.new ≡ far_after (corners_answer bytes.now level node) far_corner.old }
{
    match mesh_manifest::corners_of(bytes, level, node) {
        Ok(corners) => {
            *near_corner = three_patterns(corners.near);
            *far_corner = three_patterns(corners.far);
            0
        }
        Err(refusal) => refusal.number() as u64,
    }
}
