// A load of a line of a card with a key of the tray, and the start of a loaded line with an IV (document 02, (vii)): Rabbit keeps a
// state, the other ciphers the bytes of the key.
// The caller must ensure that the card is as a call leaves it, that the line is one of its lines, and that the command is whole.
#![tactic(auto)]

ghost use Rattle.std.specs.Prelude.{◌≡◌, true, false, List, ℕ, ◌+◌, ◌<◌, ◌≤◌, length, take};
ghost use Rattle.card_sizes.specs.Sizes.{line_count, state_words, key_length, iv_length, start_length};
ghost use Rattle.ciphers.specs.States.{spelt};
ghost use Rattle.ciphers.specs.Table.{cipher_at};
ghost use Rattle.ciphers.specs.Kept.{kept_of, start_of, keeps_ok};
ghost use Rattle.command.specs.Decode.{number_of};
ghost use Rattle.command.specs.declared.Command.TheVariants.{Load, Start};
ghost use Rattle.machine.specs.Machine.{iv_for};
ghost use Rattle.machine.specs.Calls.{line_on};
ghost use Rattle.card_layout.specs.Words.{card_in, Sound};
ghost use Rattle.card_keys.specs.Keys.{key_bytes, load_with, start_with};
ghost use Rattle.card_outcome.specs.Outcomes.{outcome_for};
ghost use Rattle.card_outcome.specs.Leaves.{call_of, EffectLeaves, CommandLeaves};

use card_keys::{Place, iv_clear, key_part};
use card_outcome::Counts;
use card_rows::tray_check;
use card_sizes::{DUE, HEAD, KEY, LOAD, START, START_IV, STATE};
use ciphers::{key_of, number_of};
use command::{Cipher, Refusal};

// What a loaded line keeps of a key of the cipher's own length.
fn keep(c: Cipher, key: &[u8]) -> [u32; STATE]
    requires { length key.now ≡ (cipher_at (number_of c)).key }
    ensures { result ≡ kept_of (number_of c) key.now }
{
    match c {
        Cipher::Rabbit => rabbit_words::keep(key),
        _ => card_spelt::key_words(key),
    }
}

// Line i is loaded with the key that is handed out, or refused where none is.
fn load_line(
    card: &mut [u32],
    i: u8,
    cipher: Cipher,
    tray: &[u8],
    at: usize,
) -> Result<Counts, Refusal>
    requires sound { Sound card.old × (i < line_count) }
    requires key_length_in_bounds { at + key_length ≤ length tray.now }
    ensures { (text out : List ℕ) → EffectLeaves card.old text out
        (load_with i (number_of cipher) (key_bytes false at tray.now tray.now))
        (outcome_for result) card.new out }
{
    let none = &tray[..0];
    let key = key_part(tray, tray, Place::InTray(at), cipher, none)?;
    let kept = keep(cipher, key);
    card_layout::put_line(2, number_of(cipher), 0, &kept, card, i);
    Ok(Counts {
        used_command: LOAD,
        used_data: 0,
        written: 0,
    })
}

// A load with a key of the tray.
pub fn run_load(
    card: &mut [u32],
    i: u8,
    cipher: Cipher,
    number: u8,
    tray: &[u8],
) -> Result<Counts, Refusal>
    requires { Sound card.old × (i < line_count) }
    ensures { (command text out : List ℕ) → CommandLeaves card.old (Load i cipher number)
        (call_of command tray.now text out) (outcome_for result) card.new out }
{
    let mode = card_layout::mode_at(card, i);
    if mode != 0 {
        return Err(Refusal::NotIdle);
    }
    tray_check(tray.len(), number)?;
    let at = KEY * (number as usize);
    load_line(card, i, cipher, tray, at)
}

// S(0) of the key whose bytes the words spell, and of the bytes of an IV that the cipher takes.
fn start_spelt(c: Cipher, kept: &[u32], iv: &[u8]) -> [u32; STATE]
    requires { (length kept.now ≡ state_words) × (length iv.now ≡ iv_length) }
    ensures { result ≡ (cipher_at (number_of c)).init (take (cipher_at (number_of c)).key (spelt kept.now))
        (take (cipher_at (number_of c)).iv iv.now) }
{
    let k = key_of(c);
    let mut key = [0u8; KEY];
    card_spelt::put_words(&kept[..8], &mut key);
    dispatch::first_state(c, &key[..k], iv)
}

// S(0) of what a loaded line keeps and of the bytes of an IV that the cipher takes.
fn start(c: Cipher, kept: &[u32], iv: &[u8]) -> [u32; STATE]
    requires kept_len { (length kept.now ≡ state_words) × (keeps_ok (number_of c) kept.now ≡ true) }
    requires iv_len { length iv.now ≡ iv_length }
    ensures { result ≡ start_of (number_of c) kept.now (take (cipher_at (number_of c)).iv iv.now) }
{
    match c {
        Cipher::Rabbit => rabbit_words::start(kept, &iv[..8]),
        _ => start_spelt(c, kept, iv),
    }
}

// S(0) of what loaded line i keeps and of the bytes of an IV that its cipher takes.
fn started(card: &[u32], i: u8, cipher: Cipher, iv: &[u8]) -> [u32; STATE]
    requires sound { Sound card.now × (i < line_count) }
    requires i_value { ((line_on (card_in card.now) i).mode ≡ 2) × ((line_on (card_in card.now) i).cipher ≡ number_of cipher) }
    requires iv_len { length iv.now ≡ iv_length }
    ensures { result ≡ start_of (number_of cipher) (line_on (card_in card.now) i).words (iv_for (number_of cipher) iv.now) }
{
    let line = card_layout::line_of(card, i);
    start(cipher, &line[HEAD..DUE], iv)
}

// Loaded line i, of this cipher, is started with an IV, or refused with 7 for the IV.
fn start_line(card: &mut [u32], i: u8, cipher: Cipher, iv: &[u8]) -> Result<Counts, Refusal>
    requires sound { Sound card.old × (i < line_count) }
    requires i_value { ((line_on (card_in card.old) i).mode ≡ 2) × ((line_on (card_in card.old) i).cipher ≡ number_of cipher) }
    requires iv_len { length iv.now ≡ iv_length }
    ensures { (text out : List ℕ) → EffectLeaves card.old text out (start_with i 2 (number_of cipher) iv.now)
        (outcome_for result) card.new out }
{
    if !iv_clear(cipher, iv) {
        return Err(Refusal::BeyondLength);
    }
    let state = started(card, i, cipher, iv);
    card_layout::put_line(1, number_of(cipher), 0, &state, card, i);
    Ok(Counts {
        used_command: START,
        used_data: 0,
        written: 0,
    })
}

// A start of line i.
pub fn run_start(card: &mut [u32], i: u8, command: &[u8]) -> Result<Counts, Refusal>
    requires sound { Sound card.old × (i < line_count) }
    requires start_length_in_bounds { start_length ≤ length command.now }
    ensures { (tray text out : List ℕ) → CommandLeaves card.old (Start i)
        (call_of command.now tray text out) (outcome_for result) card.new out }
{
    let mode = card_layout::mode_at(card, i);
    if mode != 2 {
        return Err(Refusal::NotLoaded);
    }
    let named = card_layout::cipher_at(card, i);
    let Ok(cipher) = Cipher::try_from(named) else {
        return Err(Refusal::Damaged);
    };
    let iv = &command[START_IV..START];
    start_line(card, i, cipher, iv)
}
