// The same over borrowed words, which hold the state of the unit in which a byte lies: a text crypted from there on, a block read, and the first
// block that is not 0.
// The caller must ensure words that are a state of the cipher, and a buffer as long as the text.
ghost use Rattle.std.specs.Prelude.{◌≤◌, length};
ghost use Rattle.command.specs.Decode.{number_of};
ghost use Rattle.ciphers.specs.Table.{cipher_at};
ghost use Rattle.ciphers.specs.Fit.{Fit};
ghost use Rattle.sealing_stream.specs.OnWords.{CryptsOn, ReadsNext, Finds, Lent};

use crate::{Found, TRIES, Walk};
use card_state::state_of;
use ciphers::unit_of;
use command::Cipher;

// A walk at byte n of the keystream, where w stands.
fn walk_at(c: Cipher, w: &[u32], n: usize) -> Walk
    requires { Fit (cipher_at (number_of c)) w.now }
    ensures { Lent (number_of c) w.now n result }
{
    let words = state_of(w);
    let unit = unit_of(c);
    let skip = n % unit;
    Walk {
        cipher: c,
        words,
        skip,
    }
}

// The text goes to the start of out, XORed with the keystream from its byte n on, where w stands; w then stands behind it.
pub fn crypt_on(c: Cipher, w: &mut [u32], n: usize, text: &[u8], out: &mut [u8])
    requires fit { Fit (cipher_at (number_of c)) w.old }
    requires text_in_bounds { length text.now ≤ length out.old }
    ensures { CryptsOn (number_of c) n w.old text.now out.old w.new out.new }
{
    let mut walk = walk_at(c, w, n);
    walk.crypt_on(text, out);
    w.copy_from_slice(&walk.words);
}

// Block i of the keystream, where w stands; w then stands behind it.
pub fn next_block(c: Cipher, w: &mut [u32], i: usize) -> u64
    requires fit { Fit (cipher_at (number_of c)) w.old }
    requires i_bound { i ≤ 65536 }
    ensures { ReadsNext (number_of c) i w.old result w.new }
{
    let mut walk = walk_at(c, w, 8 * i);
    let x = walk.next_block();
    w.copy_from_slice(&walk.words);
    x
}

// The first block that is not 0 of the keystream whose start w holds; w then stands behind it. An index of TRIES where the first TRIES blocks are 0.
pub fn first(c: Cipher, w: &mut [u32]) -> Found
    requires { Fit (cipher_at (number_of c)) w.old }
    ensures { Finds (number_of c) w.old result.t result.a w.new }
{
    let mut walk = walk_at(c, w, 0);
    let found = walk.first();
    w.copy_from_slice(&walk.words);
    found.unwrap_or(Found { t: TRIES, a: 0 })
}
