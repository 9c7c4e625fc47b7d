// A walk along the keystream of any cipher, from its start on: a text crypted, the next block of 64 bits, and the first block that is not 0.
// The caller must ensure the lengths of key and IV, and a buffer as long as the text.
#![tactic(auto)]

mod on_words;

ghost use Rattle.std.specs.Prelude.{◌≡◌, ◌<◌, ◌≤◌, length};
ghost use Rattle.command.specs.Decode.{number_of};
ghost use Rattle.card_sizes.specs.Sizes.{key_length, iv_length};
ghost use Rattle.ciphers.specs.Table.{cipher_at};
ghost use Rattle.ciphers.specs.Fit.{Fit};
ghost use Rattle.machine.specs.Machine.{stream_of};

use blocks::block_at;
use card_sizes::STATE;
use ciphers::{key_of, unit_of};
use command::Cipher;
use dispatch::{crypt, first_state};
pub use on_words::{crypt_on, first, next_block};

// How many blocks are tried for the first that is not 0.
pub const TRIES: usize = 4096;

// The first block that is not 0, and its index; of `first` over borrowed words TRIES where there is none.
#[derive(Clone, Copy)]
pub struct Found {
    pub t: usize,
    pub a: u64,
}

// A place in the keystream of a cipher: the state of a unit, and how many of the unit's bytes lie before the place.
#[derive(Drop)]
pub struct Walk {
    pub cipher: Cipher,
    pub words: [u32; STATE],
    pub skip: usize,
    pub ghost fit: { ∥ Fit (cipher_at (number_of cipher)) words ∥₁ },
    pub ghost within: { skip < (cipher_at (number_of cipher)).gen.unit },
}

impl Walk {
    ghost use Rattle.sealing_stream.specs.Walk.{At, CryptsOn, ReadsNext, Finds};

    // The start of the keystream of S(0), which is that of the cipher's own bytes of key and IV.
    pub fn start(cipher: Cipher, key: &[u8], iv: &[u8]) -> Walk
        requires { (length key.now ≡ key_length) × (length iv.now ≡ iv_length) }
        ensures { At (number_of cipher) (stream_of (number_of cipher) key.now iv.now) 0 result }
    {
        let k = key_of(cipher);
        let words = first_state(cipher, &key[..k], iv);
        Walk {
            cipher,
            words,
            skip: 0,
        }
    }

    // The text goes to the start of out, XORed with the keystream; the walk then stands behind it.
    pub fn crypt_on(&mut self, text: &[u8], out: &mut [u8])
        requires { length text.now ≤ length out.old }
        ensures { CryptsOn self.old text.now out.old self.new out.new }
    {
        let unit = unit_of(self.cipher);
        crypt(self.cipher, &mut self.words, self.skip, text, out);
        self.skip = (self.skip + text.len() % unit) % unit;
    }

    // The next eight bytes of the keystream as a block; the walk then stands behind them.
    pub fn next_block(&mut self) -> u64
        ensures { ReadsNext self.old result self.new }
    {
        let zeros = [0u8; 8];
        let mut z = [0u8; 8];
        self.crypt_on(&zeros, &mut z);
        block_at(&z, 0)
    }

    // The first block that is not 0, from the start of a keystream on; the walk then stands behind it. None where the first TRIES blocks are 0.
    pub fn first(&mut self) -> Option<Found>
        ensures { Finds self.old result self.new }
    {
        for t in 0..TRIES {
            let a = self.next_block();
            if a != 0 {
                return Some(Found { t, a });
            }
        }
        None
    }
}
