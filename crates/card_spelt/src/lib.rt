// Words as bytes, put to the start of a borrowed buffer, where what is behind them stays; and the bytes of a key as words.
// The caller must ensure that the buffer has room for them, and that a key is whole words, at most eight.
#![tactic(auto)]

ghost use Rattle.std.specs.Prelude.{◌≡◌, ◌++◌, ◌*◌, ◌%◌, ◌≤◌, length, drop};
ghost use Rattle.words.specs.Strings.{bytes_of};
ghost use Rattle.card_sizes.specs.Sizes.{key_length};
ghost use Rattle.ciphers.specs.States.{spelt};
ghost use Rattle.ciphers.specs.Kept.{key_words};

use card_sizes::STATE;

// The bytes of w go to the start of out.
pub fn put_word(w: u32, out: &mut [u8])
    requires { 4 ≤ length out.old }
    ensures { out.new ≡ bytes_of w ++ drop 4 out.old }
{
    out[..4].copy_from_slice(&words::bytes(w));
}

// The bytes of words go to the start of out.
pub fn put_words(w: &[u32], out: &mut [u8])
    requires { 4 * length w.now ≤ length out.old }
    ensures { out.new ≡ spelt w.now ++ drop (4 * length w.now) out.old }
{
    for (i, x) in w.iter().enumerate() {
        put_word(*x, &mut out[4 * i..]);
    }
}

// The bytes of a key as words, zeros after them.
pub fn key_words(key: &[u8]) -> [u32; STATE]
    requires { (length key.now ≤ key_length) × (length key.now % 4 ≡ 0) }
    ensures { result ≡ key_words key.now }
{
    let mut w = [0u32; STATE];
    for i in 0..key.len() / 4 {
        w[i] = words::word_at(key, 4 * i);
    }
    w
}
