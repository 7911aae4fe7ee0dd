// Refusals: the numbers of the table, checks in a fixed order, and what an answer makes of them.
#![tactic(auto)]

ghost use Rattle.std.specs.Prelude.{◌≡◌};
ghost use Rattle.refusal.specs.Table.{number_of};

// A refusal of the table, under its number: 1 to 30 are the papers', the later ones this library's own. The sentences that go with
// them stand in rust/interface/refusals.txt.
#[derive(Clone, Copy, Debug, PartialEq, Eq)]
pub enum Refusal {
    ShardingNotAllowed = 1,
    NoSuchCell = 2,
    TooManyKeyBits = 3,
    KeyOfNoCell = 4,
    NoSuchShard = 5,
    ShardLength = 6,
    IndexEntry = 7,
    IndexLength = 8,
    IdTwice = 9,
    IdElsewhere = 10,
    ChunkPastEnd = 11,
    NotListed = 12,
    NoRoom = 13,
    CardMalformed = 14,
    ManifestLength = 15,
    ManifestReal = 16,
    NodeOrder = 17,
    NoSuchNode = 18,
    InfoNotJson = 19,
    InfoSettings = 20,
    FragmentsBeforeData = 21,
    UnlistedBytes = 22,
    IndexFileLength = 23,
    NoSuchRange = 24,
    IntakeOrder = 25,
    IntakeOwed = 26,
    TotalTooLarge = 27,
    LabelsCutOff = 28,
    LabelWidth = 29,
    IntakeBuffers = 30,
    SliceLength = 31,
    CopiesDiffer = 32,
    NoSuchMinishard = 33,
}

impl Refusal {
    pub fn number(self) -> u8
        ensures { result ≡ number_of self }
    {
        self as u8
    }
}

// What a call on a shard answers that counts: chunks, numbers written, unlisted bytes or the bytes of a form; or the refusal. The
// faults of a minishard (7 to 11, of a mesh also 15 to 17 and 21) come with the byte position of what is wrong, counted from the
// beginning of the shard.
#[derive(Clone, Copy)]
pub enum CountAnswer {
    Count(usize),
    Refused(u8),
    Faulty { number: u8, position: u64 },
}
