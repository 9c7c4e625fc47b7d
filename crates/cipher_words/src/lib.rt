// A cipher over a line's words: the state that they hold, a state as words, and a crypt, which goes on from the words and leaves its last state in them.
// The caller must ensure a state that the cipher admits, a place within a unit, and a buffer as long as the text.
#![tactic(auto)]

mod of_kcipher2;
mod of_mugi;
mod of_rabbit;
mod of_snow2;
mod of_zuc;

ghost use Rattle.std.specs.Prelude.{◌≡◌, true, ◌<◌, ◌≤◌, length};
ghost use Rattle.keystream.specs.Stream.{TextCrypted};
ghost use Rattle.ciphers.specs.States.{state_words};
ghost use Rattle.ciphers.specs.Table.{Interface, row_of};
ghost use Rattle.ciphers.proofs.Sound.{Laws};

use card_sizes::STATE;
use keystream::Generator;

// A cipher whose state is held as words.
pub trait Stored: Generator {
    ghost face: { Interface Self };

    ghost range: { Self → Type 0 };

    // The state that a line's words hold.
    fn load(w: &[u32]) -> Self
        requires { length w.now ≡ state_words }
        ensures { result ≡ face.from_words w.now };

    // The words of a state, zeros after them.
    fn words(self) -> [u32; STATE]
        requires { range self }
        ensures { result ≡ face.to_words self };

    ghost laws: { Laws face range };

    ghost same: { face.gen ≡ Self.generator };
}

// The text goes to the start of out, XORed with the keystream from byte skip of the unit of the words' state on; w then holds the state of the unit in which
// the next byte lies.
pub fn xor_text<S: Stored>(w: &mut [u32], skip: usize, text: &[u8], out: &mut [u8])
    requires w_len { (length w.old ≡ state_words) × (S.face.admits w.old ≡ true) }
    requires skip_bound { (skip < S.face.gen.unit) × (length text.now ≤ length out.old) }
    ensures { TextCrypted (row_of S.face).gen skip w.old text.now out.old w.new out.new }
{
    let after = cipher_text::crypt(S::load(w), skip, text, out);
    w.copy_from_slice(&after.words());
}
