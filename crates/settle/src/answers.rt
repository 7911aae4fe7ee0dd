// What a writer of the form answered, as an answer of settling.

ghost use Rattle.std.specs.Prelude.{◌≡◌};
ghost use Rattle.settle.specs.answers.Answers.{answer_of};

use refusal::{CountAnswer, Refusal};

// The length of the form, or the refusal.
pub fn answer_of(written: Result<usize, Refusal>) -> CountAnswer
    ensures { result ≡ answer_of written }
{
    match written {
        Ok(n) => CountAnswer::Count(n),
        Err(refusal) => CountAnswer::Refused(refusal.number()),
    }
}
