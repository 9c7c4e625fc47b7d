// A change of key on a line of a card, with a key of the tray: at once where the line stands at its position, else it waits (document 02, (v)).
// The caller must ensure that the card is as a call leaves it, that the line is one of its lines, and that the command is whole.
#![tactic(auto)]

ghost use Rattle.std.specs.Prelude.{◌≡◌, false, List, ℕ, ◌+◌, ◌<◌, ◌≤◌, length};
ghost use Rattle.card_sizes.specs.Sizes.{line_count, key_length, iv_length, change_length, state_words};
ghost use Rattle.command.specs.Decode.{number_of};
ghost use Rattle.command.specs.declared.Command.TheVariants.{Change};
ghost use Rattle.machine.specs.Calls.{line_on};
ghost use Rattle.machine.specs.Machine.{based, shown, changed};
ghost use Rattle.card_layout.specs.Words.{card_in, put_line, Sound};
ghost use Rattle.card_keys.specs.Keys.{key_bytes, change_with};
ghost use Rattle.card_outcome.specs.Outcomes.{outcome_for};
ghost use Rattle.card_outcome.specs.Leaves.{call_of, EffectLeaves, CommandLeaves};

use card_keys::{Place, key_part};
use card_outcome::Counts;
use card_rows::{change_check, tray_check};
use card_sizes::{CHANGE, CHANGE_AT, CHANGE_IV, KEY};
use ciphers::number_of;
use command::{Cipher, Refusal};
use dispatch::first_state;

// Line i, which is open with this cipher, is to change at position p to the stream that begins with this state.
fn put_stream(card: &mut [u32], i: u8, cipher: Cipher, p: u64, state: &[u32])
    requires sound { Sound card.old × (i < line_count) }
    requires i_value { ((line_on (card_in card.old) i).mode ≡ 1) × ((line_on (card_in card.old) i).cipher ≡ number_of cipher) }
    requires state_len { length state.now ≡ state_words }
    ensures { card.new ≡ put_line card.old i
        (shown (changed (based (line_on (card_in card.old) i)) p state.now)) }
{
    let n = card_layout::position_at(card, i);
    if p == n {
        card_layout::put_line(1, number_of(cipher), 0, state, card, i);
        return;
    }
    card_layout::put_waiting(p, state, card, i);
}

// Line i, which is open with this cipher, is to change at position p to the stream of the key that is handed out and an IV, or
// refused where none is.
fn change_line<'a>(
    card: &mut [u32],
    i: u8,
    cipher: Cipher,
    p: u64,
    tray: &'a [u8],
    command: &'a [u8],
    at: usize,
    iv: &[u8],
) -> Result<Counts, Refusal>
    requires sound { Sound card.old × (i < line_count) }
    requires i_value { ((line_on (card_in card.old) i).mode ≡ 1) × ((line_on (card_in card.old) i).cipher ≡ number_of cipher) }
    requires key_length_in_bounds { at + key_length ≤ length tray.now }
    requires iv_len { length iv.now ≡ iv_length }
    ensures { (text out : List ℕ) → EffectLeaves card.old text out
        (change_with i p change_length (number_of cipher) (key_bytes false at tray.now command.now) iv.now)
        (outcome_for result) card.new out }
{
    let key = key_part(tray, command, Place::InTray(at), cipher, iv)?;
    let state = first_state(cipher, key, iv);
    put_stream(card, i, cipher, p, &state);
    Ok(Counts {
        used_command: CHANGE,
        used_data: 0,
        written: 0,
    })
}

// A change of key of line i at position p, with a key of the tray.
pub fn run_change<'a>(
    card: &mut [u32],
    i: u8,
    number: u8,
    p: u64,
    tray: &'a [u8],
    command: &'a [u8],
) -> Result<Counts, Refusal>
    requires sound { Sound card.old × (i < line_count) }
    requires change_length_in_bounds { change_length ≤ length command.now }
    ensures { (text out : List ℕ) → CommandLeaves card.old (Change i number p)
        (call_of command.now tray.now text out) (outcome_for result) card.new out }
{
    let mode = card_layout::mode_at(card, i);
    let n = card_layout::position_at(card, i);
    let due = card_layout::due_at(card, i);
    change_check(mode, n, due, p)?;
    tray_check(tray.len(), number)?;
    let named = card_layout::cipher_at(card, i);
    let Ok(cipher) = Cipher::try_from(named) else {
        return Err(Refusal::Damaged);
    };
    let at = KEY * (number as usize);
    let iv = &command[CHANGE_IV..CHANGE_AT];
    change_line(card, i, cipher, p, tray, command, at, iv)
}
