// The two opens of a line of a card: with a key of the tray, or with the command's own (document 01, "The card").
// The caller must ensure that the card is as a call leaves it, that the line is one of its lines, and that the command is whole.
#![tactic(auto)]

ghost use Rattle.std.specs.Prelude.{◌≡◌, List, ℕ, ◌+◌, ◌<◌, ◌≤◌, length};
ghost use Rattle.words.specs.Tests.{pick};
ghost use Rattle.card_sizes.specs.Sizes.{line_count, key_length, iv_length, tray_length, own_length};
ghost use Rattle.command.specs.Decode.{number_of};
ghost use Rattle.command.specs.declared.Command.TheVariants.{Tray, Own};
ghost use Rattle.card_layout.specs.Words.{Sound};
ghost use Rattle.card_keys.specs.Keys.{is_own, at_of, key_bytes, open_with};
ghost use Rattle.card_outcome.specs.Outcomes.{outcome_for};
ghost use Rattle.card_outcome.specs.Leaves.{call_of, EffectLeaves, CommandLeaves};

use card_keys::{Place, key_part};
use card_outcome::Counts;
use card_rows::tray_check;
use card_sizes::{KEY, OWN, OWN_IV, OWN_KEY, TRAY, TRAY_IV};
use ciphers::number_of;
use command::{Cipher, Refusal};
use dispatch::first_state;

// Line i is opened with the key that is handed out and an IV, or refused where none is.
fn open_line<'a>(
    card: &mut [u32],
    i: u8,
    cipher: Cipher,
    tray: &'a [u8],
    command: &'a [u8],
    place: Place,
    iv: &[u8],
    used_command: usize,
) -> Result<Counts, Refusal>
    requires sound { Sound card.old × (i < line_count) }
    requires key_in { at_of place + key_length ≤ length (pick (is_own place) command.now tray.now) }
    requires iv_len { length iv.now ≡ iv_length }
    ensures { (text out : List ℕ) → EffectLeaves card.old text out
        (open_with i used_command (number_of cipher) (key_bytes (is_own place) (at_of place) tray.now command.now) iv.now)
        (outcome_for result) card.new out }
{
    let key = key_part(tray, command, place, cipher, iv)?;
    let state = first_state(cipher, key, iv);
    card_layout::put_line(1, number_of(cipher), 0, &state, card, i);
    Ok(Counts {
        used_command,
        used_data: 0,
        written: 0,
    })
}

// An open with a key of the tray.
pub fn run_tray<'a>(
    card: &mut [u32],
    i: u8,
    cipher: Cipher,
    number: u8,
    tray: &'a [u8],
    command: &'a [u8],
) -> Result<Counts, Refusal>
    requires sound { Sound card.old × (i < line_count) }
    requires tray_length_in_bounds { tray_length ≤ length command.now }
    ensures { (text out : List ℕ) → CommandLeaves card.old (Tray i cipher number)
        (call_of command.now tray.now text out) (outcome_for result) card.new out }
{
    let mode = card_layout::mode_at(card, i);
    if mode != 0 {
        return Err(Refusal::NotIdle);
    }
    tray_check(tray.len(), number)?;
    let place = Place::InTray(KEY * (number as usize));
    let iv = &command[TRAY_IV..TRAY];
    open_line(card, i, cipher, tray, command, place, iv, TRAY)
}

// An open with the command's own key.
pub fn run_own<'a>(
    card: &mut [u32],
    i: u8,
    cipher: Cipher,
    tray: &'a [u8],
    command: &'a [u8],
) -> Result<Counts, Refusal>
    requires sound { Sound card.old × (i < line_count) }
    requires own_length_in_bounds { own_length ≤ length command.now }
    ensures { (text out : List ℕ) → CommandLeaves card.old (Own i cipher)
        (call_of command.now tray.now text out) (outcome_for result) card.new out }
{
    let mode = card_layout::mode_at(card, i);
    if mode != 0 {
        return Err(Refusal::NotIdle);
    }
    let iv = &command[OWN_IV..OWN];
    open_line(
        card,
        i,
        cipher,
        tray,
        command,
        Place::InCommand(OWN_KEY),
        iv,
        OWN,
    )
}
