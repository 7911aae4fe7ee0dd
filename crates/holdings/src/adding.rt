// A sheet with one shard more.

ghost use Rattle.std.specs.Prelude.{◌≡◌};
ghost use Rattle.holdings.specs.Answers.{measured_answer};

use crate::join;
use crate::measures::MeasureAnswer;
use crate::one_shard::{Sheet, refused_sheet, sound_sheet};
use refusal::Refusal;

// A sheet with the shard of this measure.
pub fn add_measured(sheet: Sheet, found: MeasureAnswer) -> Result<Sheet, Refusal>
    ensures { result ≡ measured_answer sheet found }
{
    match found {
        MeasureAnswer::Sound(counts) => join(sheet, sound_sheet(counts)),
        MeasureAnswer::Refused(number) => {
            if number == 27 {
                return Err(Refusal::TotalTooLarge);
            }
            join(sheet, refused_sheet(number))
        }
        MeasureAnswer::Faulty {
            number,
            minishard: _,
            position: _,
        } => join(sheet, refused_sheet(number)),
    }
}
