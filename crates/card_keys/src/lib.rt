// The key of a command: which part of tray or command it is, what 7 and 16 say of it and of the IV, and the key that is handed out.
// The caller must ensure that the part is there, and that a key has its bytes. An IV may have any length: a load has none.
#![tactic(auto)]

ghost use Rattle.std.specs.Prelude.{◌≡◌, ◌+◌, ◌≤◌, length, drop};
ghost use Rattle.words.specs.Tests.{pick};
ghost use Rattle.card_sizes.specs.Sizes.{key_length};
ghost use Rattle.command.specs.Decode.{refusal_of, number_of};
ghost use Rattle.ciphers.specs.Table.{cipher_at, all_zero};
ghost use Rattle.card_keys.specs.Keys.{is_own, at_of, key_bytes, key_code, Handed};

use card_admits::all_zero;
use card_sizes::KEY;
use ciphers::{iv_of, key_of};
use command::{Cipher, Refusal};

// Where the key of a command begins: at a byte of the tray, or of the command that brings its own.
#[derive(Clone, Copy, Debug, PartialEq, Eq)]
pub enum Place {
    InTray(usize),
    InCommand(usize),
}

// The bytes of a key: a part of the command, or a part of the tray.
pub fn key_field<'a>(tray: &'a [u8], command: &'a [u8], place: Place) -> &'a [u8]
    requires { at_of place + key_length ≤ length (pick (is_own place) command.now tray.now) }
    ensures { result.now ≡ key_bytes (is_own place) (at_of place) tray.now command.now }
{
    match place {
        Place::InTray(at) => &tray[at..at + KEY],
        Place::InCommand(at) => &command[at..at + KEY],
    }
}

// Whether the bytes of an IV beyond the cipher's length are zero; where there are none, they are.
pub fn iv_clear(cipher: Cipher, iv: &[u8]) -> bool
    ensures { result ≡ all_zero (drop (cipher_at (number_of cipher)).iv iv.now) }
{
    let v = iv_of(cipher);
    iv.len() < v || all_zero(&iv[v..])
}

// What refuses a key and an IV: 7 where a byte beyond the cipher's lengths is not 0, 16 where the key is all zero.
pub fn key_check(cipher: Cipher, key: &[u8], iv: &[u8]) -> Result<(), Refusal>
    requires { length key.now ≡ key_length }
    ensures { refusal_of result ≡ key_code (number_of cipher) key.now iv.now }
{
    let k = key_of(cipher);
    let plain = all_zero(&key[k..]);
    if !plain {
        return Err(Refusal::BeyondLength);
    }
    let clear = iv_clear(cipher, iv);
    if !clear {
        return Err(Refusal::BeyondLength);
    }
    let blank = all_zero(&key[..k]);
    if blank {
        return Err(Refusal::BlankKey);
    }
    Ok(())
}

// The key of a command in the cipher's own length, which is not all zero, or what refuses it and the IV.
pub fn key_part<'a>(
    tray: &'a [u8],
    command: &'a [u8],
    place: Place,
    cipher: Cipher,
    iv: &[u8],
) -> Result<&'a [u8], Refusal>
    requires { at_of place + key_length ≤ length (pick (is_own place) command.now tray.now) }
    ensures { Handed (number_of cipher) (key_bytes (is_own place) (at_of place) tray.now command.now)
        iv.now result }
{
    let field = key_field(tray, command, place);
    key_check(cipher, field, iv)?;
    let k = key_of(cipher);
    Ok(&field[..k])
}
