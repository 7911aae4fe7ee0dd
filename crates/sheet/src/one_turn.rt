// One turn: what was read of a shard's header and of its bytes, and the sheet with that shard.

ghost use Rattle.std.specs.Prelude.{◌≡◌, ◌≤◌, length};
ghost use Rattle.sheet.specs.one_turn.Turns.{header_bytes, spec_in, body_length, turn_of, turn_by, stops_short, told};

use endian::{read_u32, read_u64};
use holdings::one_shard::Sheet;
use reading::is_end;
use refusal::Refusal;
use sharding::Sharding;

// What comes after a turn.
#[derive(Clone, Copy)]
pub enum Ending {
    // there may be another shard
    More,
    // the input ended
    End,
    // it was cut
    Cut,
    // it has a shard that is too long
    Long,
    // a total would pass 2^64 - 1
    Full,
    // it could not be read on
    Unreadable,
}

// The sheet, and what comes next.
#[derive(Clone, Copy)]
pub struct Turn {
    pub sheet: Sheet,
    pub ending: Ending,
}

// The specification in a whole header.
fn spec_in(head: &[u8]) -> Sharding
    requires { length head.now ≡ header_bytes }
    ensures { result ≡ spec_in head.now }
{
    Sharding {
        preshift: head[0],
        hash: head[1],
        minishard_bits: head[2],
        shard_bits: head[3],
        kind: head[4],
    }
}

// How many bytes of a shard follow its header, or 0 where that is cut or says too many.
pub fn body_length(head: &[u8]) -> usize
    ensures { (result ≡ body_length head.now) × (result ≤ 65536) }
{
    if head.len() < 17 {
        return 0;
    }
    let n = read_u32(head, 13) as usize;
    if 65536 < n {
        return 0;
    }
    n
}

// What a sheet's answer makes of the turn.
fn turn_by(sheet: Sheet, answer: Result<Sheet, Refusal>) -> Turn
    ensures { result ≡ turn_by sheet answer }
{
    match answer {
        Ok(next) => Turn {
            sheet: next,
            ending: Ending::More,
        },
        Err(_) => Turn {
            sheet,
            ending: Ending::Full,
        },
    }
}

// A sheet with the shard whose header and bytes these are, as far as they were there.
pub fn turned(sheet: Sheet, head: &[u8], body: &[u8]) -> Turn
    requires { length head.now ≤ header_bytes }
    ensures { result ≡ turn_of sheet head.now body.now }
{
    if head.len() == 0 {
        return Turn {
            sheet,
            ending: Ending::End,
        };
    }
    if head.len() < 17 {
        return Turn {
            sheet,
            ending: Ending::Cut,
        };
    }
    let n = read_u32(head, 13) as usize;
    if 65536 < n {
        return Turn {
            sheet,
            ending: Ending::Long,
        };
    }
    if body.len() < n {
        return Turn {
            sheet,
            ending: Ending::Cut,
        };
    }
    let answer = holdings::add(sheet, spec_in(head), read_u64(head, 5), body);
    turn_by(sheet, answer)
}

// Whether a turn found fewer bytes than it asked for.
pub fn stops_short(turn: Turn) -> bool
    ensures { result ≡ stops_short turn }
{
    matches!(turn.ending, Ending::End | Ending::Cut)
}

// What is told of a turn that found too few bytes, by what one read more answered: only that can tell the input's end from a
// read that failed.
pub fn told(turn: Turn, answer: Option<usize>) -> Turn
    ensures { result ≡ told turn answer }
{
    if is_end(answer) {
        return turn;
    }
    let sheet = turn.sheet;
    Turn {
        sheet,
        ending: Ending::Unreadable,
    }
}
