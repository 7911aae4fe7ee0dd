// Reading the chunks of a minishard, each by its start step and its size.

ghost use Rattle.std.specs.Prelude.{◌≡◌, ◌+◌, ◌*◌, ◌≤◌, length};
ghost use Rattle.std.specs.Iterator.{YieldsFirst, at_most};
ghost use Rattle.unlisted.specs.chunks.Left.{chunks_of, chunks_left};

use super::{Chunk, Chunks};
use endian::read_u64;

impl<'a> Chunks<'a> {
    // The first k chunks of the minishard index of n entries at s.
    pub fn new(data: &'a [u8], s: usize, n: usize, k: usize) -> Chunks<'a>
        requires { (s + 24 * n ≤ length «data».now) × (k ≤ n) }
        ensures { chunks_left result ≡ chunks_of «data».now s n k }
    {
        Chunks {
            data,
            steps: s + 8 * n,
            sizes: s + 16 * n,
            end: 0,
            left: k,
        }
    }
}

impl<'a> Iterator for Chunks<'a> {
    type Item = Chunk;

    ghost next_gives = { YieldsFirst chunks_left };

    ghost remaining = { λ c. at_most c.left };

    fn next(&mut self) -> Option<Chunk> {
        if self.left == 0 {
            return None;
        }
        let start = self.end.wrapping_add(read_u64(self.data, self.steps));
        let size = read_u64(self.data, self.sizes);
        self.left -= 1;
        self.steps += 8;
        self.sizes += 8;
        self.end = start.wrapping_add(size);
        Some(Chunk { start, size })
    }
}
