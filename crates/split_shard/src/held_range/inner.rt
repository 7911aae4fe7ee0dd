// The file that holds a range, and the part of it.

ghost use Rattle.std.specs.Prelude.{◌≡◌, ◌+◌, length};
ghost use Rattle.split_shard.specs.held_range.Held.{range_in, Held, either, range_start, range_bytes};

use crate::held_range::RangeAnswer;

// Which file holds a range of a joined file of `n` bytes, or refusal 24.
pub fn held(seam: u64, n: u64, start: u64, end: u64) -> RangeAnswer
    ensures { result ≡ range_in seam n start end }
{
    if end < start {
        return RangeAnswer::Refused(24);
    }
    if n < end {
        return RangeAnswer::Refused(24);
    }
    if start < seam {
        if seam < end {
            return RangeAnswer::Refused(24);
        }
        return RangeAnswer::InIndex {
            start: start as usize,
            length: (end - start) as usize,
        };
    }
    RangeAnswer::InData {
        start: (start - seam) as usize,
        length: (end - start) as usize,
    }
}

// The part of one of the two files that an answer gives.
pub fn held_part<'a>(index: &'a [u8], data: &'a [u8], found: RangeAnswer) -> &'a [u8]
    requires { Held found (length index.now) (length «data».now) }
    ensures result_value { result.now ≡ range_bytes found index.now «data».now }
    ensures ref_ptr_value { (result.ref_ptr.0 ≡ either found index.entry.ref_ptr.0 «data».entry.ref_ptr.0) × (result.ref_ptr.1 ≡ either found index.entry.ref_ptr.1 «data».entry.ref_ptr.1 + range_start found) }
{
    match found {
        RangeAnswer::InIndex { start, length } => {
            let end = start + length;
            &index[start..end]
        }
        RangeAnswer::InData { start, length } => {
            let end = start + length;
            &data[start..end]
        }
        RangeAnswer::Refused(_) => &data[0..0],
    }
}
