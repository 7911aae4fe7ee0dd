// Numbers of the C interface: the answer word, the wish to drop unlisted bytes.

ghost use Rattle.std.specs.Prelude.{◌≡◌, ◌+◌, ◌<◌};
ghost use Rattle.std.proofs.Math.Option.{none, some};
ghost use Rattle.coronagamba.specs.word.Word.{word, asks_to_drop};

// The word has 32 bits for the position and one.
pub fn position_word(refusal: u8, position: u64) -> u64
    requires { position + 1 < 4294967296 }
    ensures { result ≡ word refusal none (some position) }
{
    refusal as u64 + 4294967296 * (position + 1)
}

// It has 24 bits for the minishard and one.
pub fn fault_word(refusal: u8, minishard: u64, position: u64) -> u64
    requires { (minishard + 1 < 16777216) × (position + 1 < 4294967296) }
    ensures { result ≡ word refusal (some minishard) (some position) }
{
    refusal as u64 + 256 * (minishard + 1) + 4294967296 * (position + 1)
}

// Whether the caller of settling asks to drop unlisted bytes. The number is as wide as any that C passes, so that none is cut to 1.
pub fn asks_to_drop(wish: u64) -> bool
    ensures { result ≡ asks_to_drop wish }
{
    wish == 1
}
