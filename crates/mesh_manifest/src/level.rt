// The nodes of a manifest: all of a level.

ghost use Rattle.std.specs.Prelude.{◌≡◌};
ghost use Rattle.mesh_manifest.specs.level.Level.{nodes_answer, nodes_left};

use refusal::Refusal;

// All nodes of a level, in node order: x, y, z, start and size of its fragment for each. The answer is how many numbers were written.
pub fn nodes_of(bytes: &[u8], level: u32, out: &mut [u64]) -> Result<usize, Refusal>
    ensures answer { result ≡ nodes_answer bytes.now level out.old }
    ensures out { out.new ≡ nodes_left bytes.now level out.old }
{
    crate::judge::judge(bytes)?;
    let l = level as usize;
    let levels = crate::layout::item(bytes, 6) as usize;
    if l >= levels {
        return Err(Refusal::NoSuchNode);
    }
    let n = crate::layout::count(bytes, levels, l);
    if out.len() < 5 * n {
        return Err(Refusal::NoRoom);
    }
    crate::node_numbers::put_level(bytes, levels, l, n, out);
    Ok(5 * n)
}
