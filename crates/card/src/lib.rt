// The card by value (document 01, "The card"): a card is its words, and a call returns the card after it beside its outcome.
// Nothing is asked of the caller: any card, command, key tray, data and buffer get an answer.
#![tactic(auto)]

ghost use Rattle.std.specs.Prelude.{◌≡◌};
ghost use Rattle.card_outcome.specs.Leaves.{call_of};
ghost use Rattle.card.specs.Ran.{fresh as fresh_card, CallPromise};

use card_outcome::Outcome;
use card_sizes::CARD;

#[derive(Clone, Copy, Debug, PartialEq, Eq)]
pub struct Card {
    pub words: [u32; CARD],
}

// What a call gives: the card after it, and its outcome.
#[derive(Clone, Copy, Debug, PartialEq, Eq)]
pub struct Answer {
    pub card: Card,
    pub outcome: Outcome,
}

// A fresh card: all zeros.
pub fn fresh() -> Card
    ensures { result ≡ fresh_card }
{
    Card {
        words: [0u32; CARD],
    }
}

// One call. A card that no call of this program leaves gets 255.
pub fn call<'a>(
    card: Card,
    command: &'a [u8],
    tray: &'a [u8],
    data: &[u8],
    out: &mut [u8],
) -> Answer
    ensures { CallPromise card (call_of command.now tray.now «data».now out.old)
        result out.new }
{
    let mut words = card.words;
    let result = card_engine::run(&mut words, command, tray, data, out);
    Answer {
        card: Card { words },
        outcome: Outcome::from(result),
    }
}
