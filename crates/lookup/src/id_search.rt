// The search for an id in a minishard, and what a lookup answers.

ghost use Rattle.std.specs.Prelude.{◌≡◌, ◌+◌};
ghost use Rattle.shard.specs.index.Reading.{Readable};
ghost use Rattle.lookup.specs.id_search.Search.{found_in};

use endian::read_u64;

// Where the bytes asked for lie in the file, and how many they are. 7 to 11, for a mesh also 15 to 17 and 21, come with the byte
// position of what is wrong, counted from the beginning of the shard.
#[derive(Clone, Copy)]
pub enum LookupAnswer {
    Found { start: usize, length: usize },
    Refused(u8),
    Faulty { number: u8, position: u64 },
}

// The chunk of an id in a minishard that passed the judge, whose n entries stand from p on, in whatever order; `base` is the length of the shard index.
pub fn find(base: usize, data: &[u8], p: usize, n: usize, id: u64) -> LookupAnswer
    requires { Readable base «data».now p n }
    ensures { result ≡ found_in base «data».now p n id }
{
    let q = p + 8 * n;
    let t = p + 16 * n;
    let mut at: u64 = 0;
    let mut cur: u64 = 0;
    for i in 0..n {
        cur = cur.wrapping_add(read_u64(data, p + 8 * i));
        let start = at.wrapping_add(read_u64(data, q + 8 * i));
        let size = read_u64(data, t + 8 * i);
        if cur == id {
            return LookupAnswer::Found {
                start: base + start as usize,
                length: size as usize,
            };
        }
        at = start.wrapping_add(size);
    }
    LookupAnswer::Refused(12)
}
