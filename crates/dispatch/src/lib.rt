// What a line does by its cipher: S(0) of key and IV, and a crypt from a byte of a unit on, each over the line's words.
// The caller must ensure the length of the key, an IV's 16 bytes, a state that the cipher admits, a place within a unit, and a buffer as long as the text.

#![tactic(auto)]

ghost use Rattle.std.specs.Prelude.{◌≡◌, true, ◌<◌, ◌≤◌, length, take};
ghost use Rattle.keystream.specs.Stream.{TextCrypted};
ghost use Rattle.card_sizes.specs.Sizes.{iv_length, state_words};
ghost use Rattle.ciphers.specs.Table.{cipher_at};
ghost use Rattle.command.specs.Decode.{number_of};

use card_sizes::STATE;
use cipher_words::{Stored, xor_text};
use ciphers::iv_of;
use command::Cipher;
use kcipher2::Kcipher2;
use mugi::Mugi;
use rabbit::Rabbit;
use snow2::Snow2;
use zuc::Zuc;

// S(0) of key and IV.
fn open(c: Cipher, key: &[u8], iv: &[u8]) -> [u32; STATE]
    requires key_len { length key.now ≡ (cipher_at (number_of c)).key }
    requires iv_len { length iv.now ≡ (cipher_at (number_of c)).iv }
    ensures { result ≡ (cipher_at (number_of c)).init key.now iv.now }
{
    match c {
        Cipher::Zuc => Zuc::init(key, iv).words(),
        Cipher::Rabbit => Rabbit::init(key, iv).words(),
        Cipher::Snow128 => Snow2::init128(key, iv).words(),
        Cipher::Snow256 => Snow2::init256(key, iv).words(),
        Cipher::Kcipher2 => Kcipher2::init(key, iv).words(),
        Cipher::Mugi => Mugi::init(key, iv).words(),
    }
}

// S(0) of a key in the cipher's own length and of the bytes of an IV that the cipher takes.
pub fn first_state(c: Cipher, key: &[u8], iv: &[u8]) -> [u32; STATE]
    requires key_len { length key.now ≡ (cipher_at (number_of c)).key }
    requires iv_len { length iv.now ≡ iv_length }
    ensures { result ≡ (cipher_at (number_of c)).init key.now (take (cipher_at (number_of c)).iv iv.now) }
{
    let v = iv_of(c);
    open(c, key, &iv[..v])
}

// The text goes to the start of out, XORed with the keystream from byte skip of the unit of the words' state on; w then holds the state of the unit in which
// the next byte lies.
pub fn crypt(c: Cipher, w: &mut [u32], skip: usize, text: &[u8], out: &mut [u8])
    requires w_len { (length w.old ≡ state_words) × ((cipher_at (number_of c)).admits w.old ≡ true) }
    requires skip_bound { (skip < (cipher_at (number_of c)).gen.unit) × (length text.now ≤ length out.old) }
    ensures { TextCrypted (cipher_at (number_of c)).gen skip w.old text.now out.old
        w.new out.new }
{
    match c {
        Cipher::Zuc => xor_text::<Zuc>(w, skip, text, out),
        Cipher::Rabbit => xor_text::<Rabbit>(w, skip, text, out),
        Cipher::Snow128 => xor_text::<Snow2>(w, skip, text, out),
        Cipher::Snow256 => xor_text::<Snow2>(w, skip, text, out),
        Cipher::Kcipher2 => xor_text::<Kcipher2>(w, skip, text, out),
        Cipher::Mugi => xor_text::<Mugi>(w, skip, text, out),
    }
}
