// The part of the data file that an answer gives.

ghost use Rattle.std.specs.Prelude.{◌≡◌, ◌+◌, ◌≤◌, length};
ghost use Rattle.shard.specs.index.Index.{most_shard_bytes};
ghost use Rattle.lookup.specs.Find.{part_start, part_end, part_bytes};
ghost use Rattle.split_shard.specs.Answers.{in_data, Behind};

use lookup::LookupAnswer;
use lookup::in_file::part_of;

// The place counted in the data file, behind an index file of `seam` bytes.
fn in_data(seam: usize, found: LookupAnswer) -> LookupAnswer
    requires { Behind seam found }
    ensures { result ≡ in_data seam found }
{
    match found {
        LookupAnswer::Found { start, length } => LookupAnswer::Found {
            start: start - seam,
            length,
        },
        LookupAnswer::Refused(number) => LookupAnswer::Refused(number),
        LookupAnswer::Faulty { number, position } => LookupAnswer::Faulty { number, position },
    }
}

pub fn data_part(seam: usize, data: &[u8], found: LookupAnswer) -> &[u8]
    requires behind { Behind seam found }
    requires found_in_bounds { (part_end (in_data seam found) ≤ length «data».now) × (part_end (in_data seam found) ≤ most_shard_bytes) }
    ensures result_value { result.now ≡ part_bytes (in_data seam found) «data».now }
    ensures ref_ptr_value { (result.ref_ptr.0 ≡ «data».entry.ref_ptr.0) × (result.ref_ptr.1 ≡ «data».entry.ref_ptr.1 + part_start (in_data seam found)) }
{
    part_of(data, in_data(seam, found))
}
