// Bytes and words that are all zero, which number 7 asks, the states that each cipher admits, which 8 and 255 ask, and what a loaded line may keep.
// The caller must ensure that a state has its words.
#![tactic(auto)]

ghost use Rattle.std.specs.Prelude.{◌≡◌, ◌≤◌, true, not, length, take, ◌==◌, slice_index};
ghost use Rattle.card_sizes.specs.Sizes.{state_words};
ghost use Rattle.words.specs.Tests.{both, pick};
ghost use Rattle.command.specs.Decode.{number_of};
ghost use Rattle.ciphers.specs.Table.{cipher_at, are_cells, all_zero, zeros_from};
ghost use Rattle.ciphers.specs.Kept.{keeps_ok};

use command::Cipher;

// Whether all bytes are zero.
pub fn all_zero(s: &[u8]) -> bool
    ensures { result ≡ all_zero s.now }
{
    let mut all: u8 = 0;
    for &x in s {
        all |= x;
    }
    all == 0
}

// Whether all words are zero. They are put together first, so that there is one test and not one a word.
pub fn words_zero(s: &[u32]) -> bool
    ensures { result ≡ all_zero s.now }
{
    let mut all: u32 = 0;
    for &x in s {
        all |= x;
    }
    all == 0
}

// Whether the first sixteen words of a state are cells of ZUC. Each word and the number before it are put together first, so that there is one test: of a cell
// neither has the highest digit, and of 0 and of what is over 2^31 - 1 one does.
pub fn cells(w: &[u32]) -> bool
    requires { length w.now ≡ state_words }
    ensures { result ≡ are_cells (take 16 w.now) }
{
    let mut all: u32 = 0;
    for i in 0..16 {
        let x = w[i];
        let before = x.wrapping_sub(1);
        all = all | x | before;
    }
    all < 2147483648
}

// Whether the words after the first k are zero.
fn spare(w: &[u32], k: usize) -> bool
    requires { k ≤ length w.now }
    ensures { result ≡ zeros_from k w.now }
{
    words_zero(&w[k..])
}

// Whether ZUC admits a state.
fn zuc_admits(w: &[u32]) -> bool
    requires { length w.now ≡ state_words }
    ensures { result ≡ both (are_cells (take 16 w.now)) (zeros_from 18 w.now) }
{
    cells(w) && spare(w, 18)
}

// Whether a word is the byte of Rabbit's carry, with zeros after it.
pub fn is_carry(w: u32) -> bool
    ensures { result ≡ pick (w == 0) true (w == 16777216) }
{
    w == 0 || w == 16777216
}

// Whether Rabbit admits a state.
fn rabbit_admits(w: &[u32]) -> bool
    requires { length w.now ≡ state_words }
    ensures { result ≡ both (pick (slice_index w.now 16 == 0) true (slice_index w.now 16 == 16777216))
        (zeros_from 17 w.now) }
{
    is_carry(w[16]) && spare(w, 17)
}

// Whether a cipher admits a state.
pub fn admits(c: Cipher, w: &[u32]) -> bool
    requires { length w.now ≡ state_words }
    ensures { result ≡ (cipher_at (number_of c)).admits w.now }
{
    match c {
        Cipher::Zuc => zuc_admits(w),
        Cipher::Rabbit => rabbit_admits(w),
        Cipher::Snow128 => spare(w, 18),
        Cipher::Snow256 => spare(w, 18),
        Cipher::Kcipher2 => spare(w, 20),
        Cipher::Mugi => true,
    }
}

// Whether the first k words are not all zero, and the others are.
fn key_alone(w: &[u32], k: usize) -> bool
    requires { k ≤ length w.now }
    ensures { result ≡ both (zeros_from k w.now) (not (all_zero (take k w.now))) }
{
    spare(w, k) && !words_zero(&w[..k])
}

// Whether a loaded line of a cipher may keep these words: the words of a key that is not all zero and zeros after them, of Rabbit a state that it admits.
pub fn keeps(c: Cipher, w: &[u32]) -> bool
    requires { length w.now ≡ state_words }
    ensures { result ≡ keeps_ok (number_of c) w.now }
{
    match c {
        Cipher::Rabbit => rabbit_admits(w),
        Cipher::Snow256 => key_alone(w, 8),
        _ => key_alone(w, 4),
    }
}
