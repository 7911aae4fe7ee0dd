// Reads a deposit card and then cells from standard input, and prints where each cell's chunk is stored: its key, the
// shard's file and the minishard.
#![tactic(auto)]

pub mod lines;
pub mod text;

ghost use Rattle.std.specs.Prelude.{◌≡◌, ◌≤◌, length, take};
ghost use Rattle.refusal.specs.Buffer.{over};
ghost use Rattle.morton.specs.grid.Grid.{grid_of};
ghost use Rattle.card.specs.Answers.{fault};
ghost use Rattle.locate.specs.lines.Lines.{refused_line};
ghost use Rattle.locate.specs.text.Blocks.{block_bytes};
ghost use Rattle.locate.specs.Reading.{Readable, CameInto, Located, Printed, Said, Started};

use crate::lines::line;
use crate::text::{blocks, frame};
use card::Card;
use morton::grid::Extents;
use reading::{is_end, read_full, read_one};
use refusal::Refusal;
use std::io::{Stdin, Stdout};

// How many bytes of cells are told, and whether the input could be read on.
#[derive(Clone, Copy)]
struct Came {
    got: usize,
    readable: bool,
}

// The same, and how many bytes of text they gave.
#[derive(Clone, Copy)]
struct Block {
    got: usize,
    len: usize,
    readable: bool,
}

// What the card says, and whether it could be read.
#[derive(Clone, Copy)]
struct Start {
    card: Result<Card, Refusal>,
    readable: bool,
}

// ---- reading

// Whether all bytes came that were asked for, or the input ended. Where fewer came, one byte more is asked for: the count
// alone does not tell the input's end from a read that failed.
fn is_readable(input: Stdin, got: usize, asked: usize) -> bool
    ensures { Readable got asked result }
{
    if got == asked {
        return true;
    }
    is_end(read_one(input))
}

// The bytes of a block. Where a read failed, whole cells alone are told, so that no `cut` is.
fn read_cells(input: Stdin, cells: &mut [u8]) -> Came
    requires { length cells.old ≡ block_bytes }
    ensures { CameInto cells.new result }
{
    let got = read_full(input, cells);
    let readable = is_readable(input, got, 12000);
    let told = frame::told_bytes(got, readable);
    Came {
        got: told,
        readable,
    }
}

// ---- printing

fn refuse(out: Stdout, line: &mut [u8], number: u8)
    requires { length line.old ≡ 64 }
    ensures { line.new ≡ over (refused_line number) line.old }
{
    let n = line::put_refused(line, 0, number);
    let _ = out.write_all(&line[..n]);
}

fn print_refused(out: Stdout, number: u8) {
    let mut line = [0u8; 64];
    refuse(out, &mut line, number);
}

// The line that is told of an input that could not be read on.
fn tell(out: Stdout, readable: bool) {
    if !readable {
        let _ = out.write_all(b"unreadable\n");
    }
}

// One block: cells in, their lines out.
fn locate_block(input: Stdin, card: Card, grid: Extents, cells: &mut [u8], text: &mut [u8]) -> Block
    requires { (fault card ≡ 0) × (grid ≡ grid_of card.volume) × (length cells.old ≡ block_bytes) × (length text.old ≡ 65536) }
    ensures { Located card cells.new text.old text.new result }
{
    let came = read_cells(input, cells);
    let got = came.got;
    let readable = came.readable;
    let len = blocks::cells_text(text, card, grid, &cells[..got]);
    Block { got, len, readable }
}

// Prints a block's lines. Answers whether there may be more: a short block is the last.
fn print_block(
    input: Stdin,
    out: Stdout,
    card: Card,
    grid: Extents,
    cells: &mut [u8],
    text: &mut [u8],
) -> bool
    requires { (fault card ≡ 0) × (grid ≡ grid_of card.volume) × (length cells.old ≡ block_bytes) × (length text.old ≡ 65536) }
    ensures { Printed card cells.new text.old text.new result }
{
    let block = locate_block(input, card, grid, cells, text);
    let len = block.len;
    let is_written = out.write_all(&text[..len]).is_ok();
    tell(out, block.readable);
    is_written & (block.got == 12000)
}

// A thousand cells a block; a line takes at most 64 bytes.
fn locate_some(
    input: Stdin,
    out: Stdout,
    card: Card,
    grid: Extents,
    cells: &mut [u8; 12000],
    text: &mut [u8; 65536],
) -> bool
    requires { (fault card ≡ 0) × (grid ≡ grid_of card.volume) }
    ensures { Printed card cells.new text.old text.new result }
{
    print_block(input, out, card, grid, cells, text)
}

// Block by block, as `blocks_of` cuts what follows the card, up to the first that is short. A proved loop has to end, and
// nothing says that the input does: there are as many turns as no run uses up.
fn locate_all(input: Stdin, out: Stdout, card: Card)
    requires { fault card ≡ 0 }
{
    let grid = blocks::grid_of(card);
    // fixed buffers: `Printed` says the very bytes that stand in them, and no block takes new memory
    let mut cells = [0u8; 12000];
    let mut text = [0u8; 65536];
    for _ in 0..u64::MAX {
        if !locate_some(input, out, card, grid, &mut cells, &mut text) {
            return;
        }
    }
}

// What a card says that has as many bytes as the buffer.
fn read_body(input: Stdin, bytes: &mut [u8]) -> Start
    ensures { Said bytes.new result }
{
    let got = read_full(input, bytes);
    let readable = is_readable(input, got, bytes.len());
    let card = frame::framed_card(bytes.len(), &bytes[..got]);
    Start { card, readable }
}

// What the card says whose length comes first.
fn read_start(input: Stdin, head: &mut [u8], bytes: &mut [u8]) -> Start
    requires { (length head.old ≡ 2) × (length bytes.old ≡ 65) }
    ensures { Started head.new bytes.new result }
{
    let got = read_full(input, head);
    let readable = is_readable(input, got, 2);
    let n = frame::card_length(&head[..got]);
    let body = read_body(input, &mut bytes[..n]);
    let card = body.card;
    let is_body_readable = body.readable;
    Start {
        card,
        readable: readable & is_body_readable,
    }
}

fn main(rt: HostRuntime) {
    let input = rt.stdin();
    let out = rt.stdout();
    let mut head = [0u8; 2];
    let mut bytes = [0u8; 65];
    let start = read_start(input, &mut head, &mut bytes);
    if !start.readable {
        tell(out, false);
        return;
    }
    let card = start.card;
    match card {
        Ok(card) => locate_all(input, out, card),
        Err(refusal) => print_refused(out, refusal.number()),
    }
}
