// Standard input, read into a buffer of a fixed length, and whether it has ended.
#![tactic(auto)]

ghost use Rattle.std.specs.Prelude.{◌≡◌, ◌≤◌, length, take, IfSome};
ghost use Rattle.reading.specs.End.{is_end};

use std::io::{Read, Stdin};

// Reads until the buffer is full, the input ends or a read fails, and answers how many bytes came. A `while`: each read says how far
// it came. Not `read_exact`, which does not tell how many bytes came of a part.
pub fn read_full(mut input: Stdin, buf: &mut [u8]) -> usize
    ensures within { result ≤ length buf.new }
    ensures part { result ≡ length (take result buf.new) }
{
    let mut done = 0;
    while done < buf.len() {
        match input.read(&mut buf[done..]) {
            Ok(0) => break,
            Ok(n) => done += n,
            Err(_) => break,
        }
    }
    done
}

// What a read of one byte more answers: how many came, or nothing where it failed.
pub fn read_one(mut input: Stdin) -> Option<usize>
    ensures { IfSome result (λ n. n ≤ 1) }
{
    let mut one = [0u8; 1];
    input.read(&mut one).ok()
}

// Whether a read answered that no byte is left. A failed one does not.
pub fn is_end(answer: Option<usize>) -> bool
    ensures { result ≡ is_end answer }
{
    matches!(answer, Some(0))
}
