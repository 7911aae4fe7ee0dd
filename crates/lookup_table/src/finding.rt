// The search for an id in a table that was filled once: by halving, with no branch that depends on the ids.

ghost use Rattle.std.specs.Prelude.{◌≡◌, ◌*◌, ◌<◌, ◌≤◌, length, nat_lt};
ghost use Rattle.refusal.specs.Choice.{pick};
ghost use Rattle.lookup_table.specs.sorting.Table.{id_in};
ghost use Rattle.lookup_table.specs.finding.Find.{searched, Finds};
ghost use Rattle.lookup_table.specs.finding.Halving.{Between};

use lookup::LookupAnswer;

fn entries_of(table: &[u64], n: u64) -> usize
    ensures { (result ≡ searched table.now n) × (3 * result ≤ length table.now) }
{
    let room = table.len() / 3;
    n.min(room as u64) as usize
}

// How far to go: over `half` entries, the last of which is i, where its id is below the one sought.
fn step(table: &[u64], i: usize, half: usize, id: u64) -> usize
    requires { 3 * i < length table.now }
    ensures { result ≡ pick (nat_lt (id_in table.now i) id) half 0 }
{
    if table[3 * i] < id { half } else { 0 }
}

// The first of n entries whose id is not below the one sought, where the ids rise. `partition_point` needs a slice with an entry
// in each element, and takes a branch on each id.
fn first_from(table: &[u64], n: usize, id: u64) -> usize
    requires { 3 * n ≤ length table.now }
    ensures { Between table.now n id result 0 }
{
    let mut at: usize = 0;
    let mut len = n;
    while len > 0 {
        let rest = len / 2;
        let half = len - rest;
        at += step(table, at + half - 1, half, id);
        len = rest;
    }
    at
}

// The chunk of an id among the first n entries of a table, or of all where it has fewer; 12 where none of them has it.
pub fn find_in_table(table: &[u64], n: u64, id: u64) -> LookupAnswer
    ensures { Finds table.now (searched table.now n) id result }
{
    let count = entries_of(table, n);
    let at = first_from(table, count, id);
    if at >= count {
        return LookupAnswer::Refused(12);
    }
    if table[3 * at] != id {
        return LookupAnswer::Refused(12);
    }
    LookupAnswer::Found {
        start: table[3 * at + 1] as usize,
        length: table[3 * at + 2] as usize,
    }
}
