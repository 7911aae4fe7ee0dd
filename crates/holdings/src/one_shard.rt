// The rows of the yearly holdings sheet, and the sheet of one shard.

ghost use Rattle.std.specs.Prelude.{◌≡◌};
ghost use Rattle.holdings.specs.one_shard.Sheet.{rows, from_rows_of, empty, tally, sound_sheet, refused_sheet};

use crate::measures::Counts;

// Plain numbers: how many shards were sound, how many were refused with each number that the check gives, and over the sound ones the
// chunks listed, the sum of their sizes and the unlisted bytes. An empty sheet has 0 in each row.
#[derive(Clone, Copy)]
pub struct Sheet {
    pub sound: u64,
    pub refused1: u64,
    pub refused5: u64,
    pub refused6: u64,
    pub refused7: u64,
    pub refused8: u64,
    pub refused9: u64,
    pub refused10: u64,
    pub refused11: u64,
    pub refused15: u64,
    pub refused16: u64,
    pub refused17: u64,
    pub refused21: u64,
    pub refused23: u64,
    pub chunks: u64,
    pub bytes: u64,
    pub unlisted: u64,
}

// Its rows, in the order of the fields.
#[tactic(auto, using(crate::proofs::one_shard::Rows::rowing))]
pub fn rows_of(sheet: Sheet) -> [u64; 17]
    ensures { result ≡ rows sheet }
{
    [
        sheet.sound,
        sheet.refused1,
        sheet.refused5,
        sheet.refused6,
        sheet.refused7,
        sheet.refused8,
        sheet.refused9,
        sheet.refused10,
        sheet.refused11,
        sheet.refused15,
        sheet.refused16,
        sheet.refused17,
        sheet.refused21,
        sheet.refused23,
        sheet.chunks,
        sheet.bytes,
        sheet.unlisted,
    ]
}

// The sheet with these rows.
#[tactic(auto, using(crate::proofs::one_shard::Rows::rowing))]
pub fn from_rows(rows: [u64; 17]) -> Sheet
    ensures { result ≡ from_rows_of rows }
{
    Sheet {
        sound: rows[0],
        refused1: rows[1],
        refused5: rows[2],
        refused6: rows[3],
        refused7: rows[4],
        refused8: rows[5],
        refused9: rows[6],
        refused10: rows[7],
        refused11: rows[8],
        refused15: rows[9],
        refused16: rows[10],
        refused17: rows[11],
        refused21: rows[12],
        refused23: rows[13],
        chunks: rows[14],
        bytes: rows[15],
        unlisted: rows[16],
    }
}

pub fn empty() -> Sheet
    ensures { result ≡ empty }
{
    from_rows([0; 17])
}

// 1 in the row of the number, 0 in the others.
#[tactic(auto, using(crate::proofs::one_shard::Rows::row))]
fn one(row: u8, number: u8) -> u64
    ensures { result ≡ tally row number }
{
    u64::from(number == row)
}

// The sheet of a sound shard.
#[tactic(auto, using(crate::proofs::one_shard::Rows::sounding))]
pub fn sound_sheet(counts: Counts) -> Sheet
    ensures { result ≡ sound_sheet counts }
{
    let mut sheet = empty();
    sheet.sound = 1;
    sheet.chunks = counts.chunks;
    sheet.bytes = counts.bytes;
    sheet.unlisted = counts.unlisted;
    sheet
}

// The sheet of a shard that the check refuses: none of its chunks is counted.
#[tactic(auto, using(crate::proofs::one_shard::Rows::refusing))]
pub fn refused_sheet(number: u8) -> Sheet
    ensures { result ≡ refused_sheet number }
{
    Sheet {
        sound: 0,
        refused1: one(1, number),
        refused5: one(5, number),
        refused6: one(6, number),
        refused7: one(7, number),
        refused8: one(8, number),
        refused9: one(9, number),
        refused10: one(10, number),
        refused11: one(11, number),
        refused15: one(15, number),
        refused16: one(16, number),
        refused17: one(17, number),
        refused21: one(21, number),
        refused23: one(23, number),
        chunks: 0,
        bytes: 0,
        unlisted: 0,
    }
}
