// A call on a card's borrowed words (document 01, "The card"): a damaged card is told, the command is read, and what it says is decided and performed.
// The caller must ensure that the card has its words.
#![tactic(auto)]

ghost use Rattle.std.specs.Prelude.{◌≡◌, length};
ghost use Rattle.card_sizes.specs.Sizes.{card_size};
ghost use Rattle.card_outcome.specs.Outcomes.{outcome_for};
ghost use Rattle.card_outcome.specs.Leaves.{call_of, CallLeaves};

use card_checks::card_ok;
use card_outcome::Counts;
use card_perform::perform;
use command::Refusal;
use command_read::decode;

// One call. A card that no call of this program leaves gets 255.
pub fn run<'a>(
    card: &mut [u32],
    command: &'a [u8],
    tray: &'a [u8],
    data: &[u8],
    out: &mut [u8],
) -> Result<Counts, Refusal>
    requires { length card.old ≡ card_size }
    ensures { CallLeaves card.old
        (call_of command.now tray.now «data».now out.old) (outcome_for result) card.new
        out.new }
{
    if !card_ok(card) {
        return Err(Refusal::Damaged);
    }
    let decoded = decode(command);
    let Ok(k) = decoded else {
        return Err(decoded.unwrap_err());
    };
    perform(card, k, command, tray, data, out)
}
