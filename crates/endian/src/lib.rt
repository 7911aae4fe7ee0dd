// Little-endian numbers at places of byte slices that the caller has tested: readers, writers, copies.
#![tactic(auto)]

pub mod copying;

ghost use Rattle.std.specs.Prelude.{◌≡◌, [], ◌∷◌, ◌+◌, ◌<◌, ◌≤◌, length, take, drop};
ghost use Rattle.endian.specs.Little.{le, le_at};
ghost use Rattle.endian.specs.Place.{paste};

// The N bytes from `at` on.
fn bytes_at<const N: usize>(s: &[u8], at: usize) -> [u8; N]
    requires { at + N ≤ length s.now }
    ensures { result ≡ take N (drop at s.now) }
{
    let mut bytes = [0u8; N];
    bytes.copy_from_slice(&s[at..at + N]);
    bytes
}

// One reader and one writer for each width: from_le_bytes and to_le_bytes are methods of each type, and no trait has them.
#[tactic(auto, using(crate::proofs::Little::le_at_bytes_2))]
pub fn read_u16(s: &[u8], at: usize) -> u16
    requires { at + 2 ≤ length s.now }
    ensures { (result ≡ le_at 2 s.now at) × (result < 65536) }
{
    u16::from_le_bytes(bytes_at(s, at))
}

#[tactic(auto, using(crate::proofs::Little::le_at_bytes_4))]
pub fn read_u32(s: &[u8], at: usize) -> u32
    requires { at + 4 ≤ length s.now }
    ensures { (result ≡ le_at 4 s.now at) × (result < 4294967296) }
{
    u32::from_le_bytes(bytes_at(s, at))
}

#[tactic(auto, using(crate::proofs::Little::le_at_bytes_8))]
pub fn read_u64(s: &[u8], at: usize) -> u64
    requires { at + 8 ≤ length s.now }
    ensures { (result ≡ le_at 8 s.now at) × (result < 18446744073709551616) }
{
    u64::from_le_bytes(bytes_at(s, at))
}

#[tactic(auto, using(crate::proofs::Paste::store))]
pub fn put_byte(out: &mut [u8], at: usize, b: u8)
    requires { at < length out.old }
    ensures { out.new ≡ paste at (b ∷ []) out.old }
{
    out[at] = b;
}

#[tactic(auto, using(crate::proofs::Paste::part_pasted))]
// Bytes over those from `at` on.
fn put_bytes(out: &mut [u8], at: usize, bytes: &[u8])
    requires { at + length bytes.now ≤ length out.old }
    ensures { out.new ≡ paste at bytes.now out.old }
{
    out[at..at + bytes.len()].copy_from_slice(bytes);
}

#[tactic(auto, using(crate::proofs::Little::le_bytes))]
pub fn put_u16(out: &mut [u8], at: usize, v: u16)
    requires { at + 2 ≤ length out.old }
    ensures { out.new ≡ paste at (le 2 v) out.old }
{
    put_bytes(out, at, &v.to_le_bytes());
}

#[tactic(auto, using(crate::proofs::Little::le_bytes))]
pub fn put_u32(out: &mut [u8], at: usize, v: u32)
    requires { at + 4 ≤ length out.old }
    ensures { out.new ≡ paste at (le 4 v) out.old }
{
    put_bytes(out, at, &v.to_le_bytes());
}

#[tactic(auto, using(crate::proofs::Little::le_bytes))]
pub fn put_u64(out: &mut [u8], at: usize, v: u64)
    requires { at + 8 ≤ length out.old }
    ensures { out.new ≡ paste at (le 8 v) out.old }
{
    put_bytes(out, at, &v.to_le_bytes());
}
