// What stands before the cells: a card's length and the card; and what is told where a read failed.

ghost use Rattle.std.specs.Prelude.{◌≡◌, ◌≤◌};
ghost use Rattle.locate.specs.text.Output.{framed};
ghost use Rattle.locate.specs.text.Blocks.{is_card_length, card_length};
ghost use Rattle.locate.specs.text.Ends.{told_bytes};

use card::Card;
use refusal::Refusal;

// A card of a volume can have 46 or 61 bytes, of a mesh 50 or 65.
fn is_card_length(n: u16) -> bool
    ensures { result ≡ is_card_length n }
{
    (n == 46) | ((n == 61) | ((n == 50) | (n == 65)))
}

// How many bytes of a card follow its length, or 0 where that is no card's or is cut short.
pub fn card_length(head: &[u8]) -> usize
    ensures { (result ≡ card_length head.now) × (result ≤ 65) }
{
    if head.len() < 2 {
        return 0;
    }
    let n = endian::read_u16(head, 0);
    if !is_card_length(n) {
        return 0;
    }
    n as usize
}

// What a card of n bytes says: 14 where it is cut short.
pub fn framed_card(n: usize, bytes: &[u8]) -> Result<Card, Refusal>
    ensures { result ≡ framed n bytes.now }
{
    if bytes.len() != n {
        return Err(Refusal::CardMalformed);
    }
    card::read_card(bytes)
}

// ---- where a read failed

// How many bytes of a block are told: all that came, or whole cells alone where a read failed.
pub fn told_bytes(got: usize, readable: bool) -> usize
    ensures { (result ≡ told_bytes got readable) × (result ≤ got) }
{
    if readable {
        return got;
    }
    got - got % 12
}
