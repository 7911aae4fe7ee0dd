// Reads shards from standard input and prints the holdings sheet over them: docs/SHEET.md fixes the input and the lines.
#![tactic(auto)]

pub mod one_turn;

ghost use Rattle.std.specs.Prelude.{◌≡◌, ◌≤◌, length, take};
ghost use Rattle.sheet.specs.one_turn.Turns.{header_bytes, most_bytes, TurnedBy, Turned, Told, Next, Finished};

use crate::one_turn::{Ending, Turn};
use holdings::one_shard::Sheet;
use reading::{read_full, read_one};
use std::io::{self, Stdin};

// ---- reading

// As many bytes of a shard as the buffer has, behind its header.
fn read_body(input: Stdin, sheet: Sheet, head: &[u8], body: &mut [u8]) -> Turn
    requires { length head.now ≤ header_bytes }
    ensures { TurnedBy sheet head.now body.new result }
{
    let got = read_full(input, body);
    crate::one_turn::turned(sheet, head, &body[..got])
}

// The next shard: its header, and as many bytes as that says.
fn read_next(input: Stdin, sheet: Sheet, head: &mut [u8], body: &mut [u8]) -> Turn
    requires { (length head.old ≡ header_bytes) × (length body.old ≡ most_bytes) }
    ensures { Turned sheet head.new body.old body.new result }
{
    let got = read_full(input, head);
    let n = crate::one_turn::body_length(&head[..got]);
    read_body(input, sheet, &head[..got], &mut body[..n])
}

// A turn that found too few bytes asks for one byte more: the count alone does not tell the input's end from a read that failed.
fn tell(input: Stdin, turn: Turn) -> Turn
    ensures { Told turn result }
{
    if !crate::one_turn::stops_short(turn) {
        return turn;
    }
    crate::one_turn::told(turn, read_one(input))
}

fn next(input: Stdin, sheet: Sheet, head: &mut [u8; 17], body: &mut [u8; 65536]) -> Turn
    ensures { Next sheet head.new body.old body.new result }
{
    tell(input, read_next(input, sheet, head, body))
}

// Shard by shard, up to what ends the input. A proved loop has to end, and nothing says that the input does: there are as many turns as
// no run uses up.
#[tactic(auto, using(crate::proofs::one_turn::Turning::reaching))]
fn add_all(input: Stdin) -> Turn
    ensures { Finished result }
{
    let mut head = [0u8; 17];
    let mut body = [0u8; 65536];
    let mut at = Turn {
        sheet: holdings::one_shard::empty(),
        ending: Ending::More,
    };
    for _turns in 0..u64::MAX {
        let Ending::More = at.ending else {
            return at;
        };
        at = next(input, at.sheet, &mut head, &mut body);
    }
    at
}

// ---- printing

fn print_row(rt: &impl Print, name: &str, n: u64) -> io::Result<()> {
    println!(rt; "{name} {n}")
}

fn print_sheet(rt: &impl Print, sheet: Sheet) -> io::Result<()> {
    print_row(rt, "shards sound", sheet.sound)?;
    print_row(rt, "shards refused 1", sheet.refused1)?;
    print_row(rt, "shards refused 5", sheet.refused5)?;
    print_row(rt, "shards refused 6", sheet.refused6)?;
    print_row(rt, "shards refused 7", sheet.refused7)?;
    print_row(rt, "shards refused 8", sheet.refused8)?;
    print_row(rt, "shards refused 9", sheet.refused9)?;
    print_row(rt, "shards refused 10", sheet.refused10)?;
    print_row(rt, "shards refused 11", sheet.refused11)?;
    print_row(rt, "shards refused 15", sheet.refused15)?;
    print_row(rt, "shards refused 16", sheet.refused16)?;
    print_row(rt, "shards refused 17", sheet.refused17)?;
    print_row(rt, "shards refused 21", sheet.refused21)?;
    print_row(rt, "shards refused 23", sheet.refused23)?;
    print_row(rt, "chunks", sheet.chunks)?;
    print_row(rt, "chunk bytes", sheet.bytes)?;
    print_row(rt, "unlisted bytes", sheet.unlisted)
}

// Why the reading stopped, where that was not the input's end.
fn print_ending(rt: &impl Print, ending: Ending) -> io::Result<()> {
    match ending {
        Ending::More | Ending::End => Ok(()),
        Ending::Cut => println!(rt; "cut"),
        Ending::Long => println!(rt; "too long"),
        Ending::Full => println!(rt; "refused 27"),
        Ending::Unreadable => println!(rt; "unreadable"),
    }
}

fn main(rt: HostRuntime) -> io::Result<()> {
    let last = add_all(rt.stdin());
    print_sheet(&rt, last.sheet)?;
    print_ending(&rt, last.ending)
}
