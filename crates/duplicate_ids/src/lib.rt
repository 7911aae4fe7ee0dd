// An id that stands twice in a minishard: none where the ids rise; else, up to 2^16 entries, a look through a filter, and passes
// over the row where there are more or the filter tells too little.
#![tactic(auto)]

pub mod filter;
pub mod heapsort;
pub mod ids;
pub mod passes;

ghost use Rattle.std.specs.Prelude.{◌≡◌, ◌+◌, ◌*◌, ◌≤◌, length};
ghost use Rattle.endian.specs.Little.{row_at};
ghost use Rattle.duplicate_ids.specs.ids.Ids.{first_twice};

use crate::filter::sifted;
use crate::ids::{rising, stays};
use crate::passes::inner::in_passes;

// How many ids a pass has room for: fewer entries than FEW take one pass, and little of the stack.
const FEW: usize = 1024;

const MANY: usize = 32768;

// Of more than 2^16 entries a sixteenth is searched before all are: what stands twice often does so soon. As this function calls
// itself, the compiler joins it with no caller, and those that it calls keep their blocks on a stack of their own.
fn search(data: &[u8], p: usize, n: usize) -> usize
    requires { p + 8 * n ≤ length «data».now }
    ensures { result ≡ first_twice (row_at «data».now p) n }
{
    if 65536 < n {
        let few = n / 16;
        let soon = search(data, p, few);
        if soon < few {
            return soon;
        }
        return in_passes::<MANY>(data, p, n);
    }
    let found = sifted(data, p, n);
    if found.sure {
        return found.at;
    }
    in_passes::<MANY>(data, p, n)
}

// The first of the n entries whose id steps stand at p that has the id of an earlier one; n where there is none.
pub fn first_twice(data: &[u8], p: usize, n: usize) -> usize
    requires { p + 8 * n ≤ length «data».now }
    ensures { result ≡ first_twice (row_at «data».now p) n }
{
    let k = rising(data, p, n);
    if n <= k {
        return n;
    }
    if stays(data, p, k) {
        return k;
    }
    if n < FEW {
        return in_passes::<FEW>(data, p, n);
    }
    search(data, p, n)
}
