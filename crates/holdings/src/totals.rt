// The totals of two sheets, row by row.

ghost use Rattle.std.specs.Prelude.{◌≡◌, length};
ghost use Rattle.holdings.specs.totals.Totals.{Totals};

// Adds the second rows to the first, up to a total that would pass 2^64 - 1, and tells whether one would. Then the first are of no use.
pub fn add_rows(totals: &mut [u64], rows: &[u64]) -> bool
    requires { length totals.old ≡ length rows.now }
    ensures { Totals totals.old rows.now totals.new result }
{
    for (i, total) in totals.iter_mut().enumerate() {
        if u64::MAX - *total < rows[i] {
            return true;
        }
        *total += rows[i];
    }
    false
}
