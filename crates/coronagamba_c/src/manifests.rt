// Mesh manifests. Reals cross the border as their bit patterns.
// Made by ./interface: change crates/coronagamba, then run it.

ghost use Rattle.std.specs.Prelude.{◌≡◌};
ghost use Rattle.mesh_manifest.specs.sound.Verdict.{manifest_answer, manifest_result};
ghost use Rattle.mesh_manifest.specs.Fields.{header_answer, field_answer, field_result, header_result};
ghost use Rattle.mesh_manifest.specs.nodes.Nodes.{node_answer, node_result};
ghost use Rattle.mesh_manifest.specs.level.Level.{nodes_answer, nodes_left};
ghost use Rattle.mesh_manifest.specs.corners.Boxes.{corners_answer, corners_result};
ghost use Rattle.refusal.specs.Result.{written_result};
ghost use Rattle.coronagamba.specs.word.Word.{length_after, word_of};
ghost use Rattle.coronagamba.specs.Manifests.{header_after, kind_after, value_after, position_after, fragment_after, bytes_after, near_after, far_after};

#[unsafe(no_mangle)]
pub extern "C" fn coronagamba_manifest_check(bytes: &[u8]) -> u64
    ensures answer { result ≡ word_of (manifest_result (manifest_answer bytes.now)) }
{
    coronagamba::manifests::coronagamba_manifest_check(bytes)
}

#[unsafe(no_mangle)]
pub extern "C" fn coronagamba_manifest_header(bytes: &[u8], header: &mut [u32; 6]) -> u64
    ensures answer { result ≡ word_of (header_result (header_answer bytes.now)) }
    ensures header { header.new ≡ header_after (header_answer bytes.now) header.old }
{
    coronagamba::manifests::coronagamba_manifest_header(bytes, header)
}

#[unsafe(no_mangle)]
pub extern "C" fn coronagamba_manifest_field(
    bytes: &[u8],
    number: u32,
    kind: &mut u32,
    value: &mut u32,
) -> u64
    ensures answer { result ≡ word_of (field_result (field_answer bytes.now number)) }
    ensures kind { kind.new ≡ kind_after (field_answer bytes.now number) kind.old }
    ensures value { value.new ≡ value_after (field_answer bytes.now number) value.old }
{
    coronagamba::manifests::coronagamba_manifest_field(bytes, number, kind, value)
}

#[unsafe(no_mangle)]
pub extern "C" fn coronagamba_manifest_node(
    bytes: &[u8],
    level: u32,
    node: u32,
    position: &mut [u32; 3],
    start: &mut u64,
    size: &mut u32,
) -> u64
    ensures answer { result ≡ word_of (node_result (node_answer bytes.now level node)) }
    ensures position { position.new ≡ position_after (node_answer bytes.now level node) position.old }
    ensures start { start.new ≡ fragment_after (node_answer bytes.now level node) start.old }
    ensures size { size.new ≡ bytes_after (node_answer bytes.now level node) size.old }
{
    coronagamba::manifests::coronagamba_manifest_node(bytes, level, node, position, start, size)
}

#[unsafe(no_mangle)]
pub extern "C" fn coronagamba_manifest_nodes(
    bytes: &[u8],
    level: u32,
    out: &mut [u64],
    length: &mut u64,
) -> u64
    ensures answer { result ≡ word_of (written_result (nodes_answer bytes.now level out.old)) }
    ensures out { out.new ≡ nodes_left bytes.now level out.old }
    ensures length { length.new ≡ length_after (nodes_answer bytes.now level out.old) length.old }
{
    coronagamba::manifests::coronagamba_manifest_nodes(bytes, level, out, length)
}

#[unsafe(no_mangle)]
pub extern "C" fn coronagamba_manifest_corners(
    bytes: &[u8],
    level: u32,
    node: u32,
    near_corner: &mut [u32; 3],
    far_corner: &mut [u32; 3],
) -> u64
    ensures answer { result ≡ word_of (corners_result (corners_answer bytes.now level node)) }
    ensures near { near_corner.new ≡ near_after (corners_answer bytes.now level node) near_corner.old }
    ensures far { far_corner.new ≡ far_after (corners_answer bytes.now level node) far_corner.old }
{
    coronagamba::manifests::coronagamba_manifest_corners(
        bytes,
        level,
        node,
        near_corner,
        far_corner,
    )
}
