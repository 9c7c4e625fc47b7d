// What each command does to a card, on the card's borrowed words: the opens, crypt, park, resume, close, change, load and start.
// The caller must ensure that the card is as a call leaves it, and that the command is read.
#![tactic(auto)]

ghost use Rattle.std.specs.Prelude.{◌≡◌};
ghost use Rattle.command.specs.Decode.{decode_of};
ghost use Rattle.card_layout.specs.Words.{Sound};
ghost use Rattle.card_outcome.specs.Outcomes.{outcome_for};
ghost use Rattle.card_outcome.specs.Leaves.{call_of, CommandLeaves};

use card_change::run_change;
use card_crypt::run_crypt;
use card_load::{run_load, run_start};
use card_open::{run_own, run_tray};
use card_outcome::Counts;
use card_park::{run_close, run_park, run_resume};
use command::{Command, Refusal};

// What a command that is read does to a card.
pub fn perform<'a>(
    card: &mut [u32],
    k: Command,
    command: &'a [u8],
    tray: &'a [u8],
    data: &[u8],
    out: &mut [u8],
) -> Result<Counts, Refusal>
    requires { Sound card.old × (decode_of command.now ≡ Ok k) }
    ensures { CommandLeaves card.old k
        (call_of command.now tray.now «data».now out.old) (outcome_for result) card.new
        out.new }
{
    match k {
        Command::Tray { line, cipher, key } => run_tray(card, line, cipher, key, tray, command),
        Command::Own { line, cipher } => run_own(card, line, cipher, tray, command),
        Command::Crypt { line, count } => run_crypt(card, line, count, data, out),
        Command::Park { line } => run_park(card, line, out),
        Command::Resume { line } => run_resume(card, line, command),
        Command::Close { line } => run_close(card, line),
        Command::Change {
            line,
            key,
            position,
        } => run_change(card, line, key, position, tray, command),
        Command::Load { line, cipher, key } => run_load(card, line, cipher, key, tray),
        Command::Start { line } => run_start(card, line, command),
    }
}
