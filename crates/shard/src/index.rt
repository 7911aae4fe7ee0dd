// The entries of the shard index, and what a fault of a minishard is.

ghost use Rattle.std.specs.Prelude.{◌≡◌, ◌+◌, ◌*◌, ◌<◌, ◌≤◌, length};
ghost use Rattle.shard.specs.index.Index.{entry_start_of, entry_end_of};

use endian::read_u64;

// The first test that a minishard fails, with the byte position, counted from the beginning of the shard, of what fails it;
// number 0 where it is sound.
#[derive(Clone, Copy)]
pub struct Fault {
    pub number: u8,
    pub position: u64,
}

// Where the minishard index of minishard m begins and ends.
pub fn entry_start(index: &[u8], m: u64) -> u64
    requires { 16 * m + 16 ≤ length index.now }
    ensures { (result ≡ entry_start_of index.now m) × (result < 18446744073709551616) }
{
    read_u64(index, 16 * m as usize)
}

pub fn entry_end(index: &[u8], m: u64) -> u64
    requires { 16 * m + 16 ≤ length index.now }
    ensures { (result ≡ entry_end_of index.now m) × (result < 18446744073709551616) }
{
    read_u64(index, 16 * m as usize + 8)
}
