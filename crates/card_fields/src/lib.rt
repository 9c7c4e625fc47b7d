// The fields of an image, read from its bytes: the cipher, n, the line that parked it, the park's number and the words of the state
// (document 01, "The card", and document 02, (iii) and (x)).
// The caller must ensure that the image has its length.
#![tactic(auto)]

ghost use Rattle.std.specs.Prelude.{◌≡◌, ◌≤◌, length};
ghost use Rattle.card_sizes.specs.Sizes.{image_length};
ghost use Rattle.machine.specs.Machine.{image_line, image_from, image_number};

use card_sizes::{IMAGE_FROM, IMAGE_NUMBER, IMAGE_STATE, STATE};

// The cipher of the open line that an image holds.
pub fn cipher_in(s: &[u8]) -> u8
    requires { image_length ≤ length s.now }
    ensures { result ≡ (image_line s.now).cipher }
{
    s[0]
}

// Its position.
pub fn position_in(s: &[u8]) -> u64
    requires { image_length ≤ length s.now }
    ensures { result ≡ (image_line s.now).n }
{
    let high = u64::from(words::word_at(s, 1));
    let low = u64::from(words::word_at(s, 5));
    high * 4294967296 + low
}

// The line that parked it.
pub fn from_in(s: &[u8]) -> u8
    requires { image_length ≤ length s.now }
    ensures { result ≡ image_from s.now }
{
    s[IMAGE_FROM]
}

// The number of its park.
pub fn number_in(s: &[u8]) -> u32
    requires { image_length ≤ length s.now }
    ensures { result ≡ image_number s.now }
{
    words::word_at(s, IMAGE_NUMBER)
}

// Its state.
pub fn words_in(s: &[u8]) -> [u32; STATE]
    requires { image_length ≤ length s.now }
    ensures { result ≡ (image_line s.now).words }
{
    let mut w = [0u32; STATE];
    for i in 0..STATE {
        w[i] = words::word_at(s, IMAGE_STATE + 4 * i);
    }
    w
}
