// Bytes copied from one slice into another, and filled with zeros.

ghost use Rattle.std.specs.Prelude.{◌≡◌, ◌+◌, ◌≤◌, length, take, drop, replicate};
ghost use Rattle.endian.specs.Place.{paste};

#[tactic(auto, using(crate::proofs::Paste::part_pasted))]
// The bytes of src from `from` on, len of them, into out from `at` on.
pub fn copy_bytes(src: &[u8], from: usize, len: usize, out: &mut [u8], at: usize)
    requires { (from + len ≤ length src.now) × (at + len ≤ length out.old) }
    ensures { out.new ≡ paste at (take len (drop from src.now)) out.old }
{
    out[at..at + len].copy_from_slice(&src[from..from + len]);
}

#[tactic(auto, using(crate::proofs::Paste::part_pasted))]
pub fn fill_zero(out: &mut [u8], at: usize, len: usize)
    requires { at + len ≤ length out.old }
    ensures { out.new ≡ paste at (replicate len 0) out.old }
{
    out[at..at + len].fill(0);
}
