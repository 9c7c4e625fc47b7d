// The start of Decim v2 from key and IV (ISO/IEC 18033-4, 8.4.3): the register of key and IV, its turns in LFSR mode, and the rounds that fill the buffer.
// The caller must ensure the lengths of key and IV, ten bytes and eight.
ghost use Rattle.std.specs.Prelude.{◌≡◌, ◌+◌, ◌*◌, ◌/◌, ◌<◌, length};
ghost use Rattle.words.specs.Lists.{iter};
ghost use Rattle.decim_register.specs.Register.{joined_down, init_next_lfsr};
ghost use Rattle.decim.specs.Cipher.{init_next, string_bit, loaded_bit, loaded, buffer_filled, init as init_of};

use crate::Decim;
use decim_buffer::Buffer;
use decim_register::{f_word, feed_word, four, mix};

// Bit j of a string, the lowest bit of its last byte first.
fn string_bit(s: &[u8], j: usize) -> u32
    requires { j / 8 < length s.now }
    ensures { result ≡ string_bit s.now j }
{
    let at = s.len() - 1 - j / 8;
    let k = (j % 8) as u32;
    (words::wide(s[at]) >> k) % 2
}

// Bit j of the register before any turn, 8.4.3 a).
fn load_bit(key: &[u8], iv: &[u8], j: usize) -> u32
    requires { (length key.now ≡ 10) × ((length iv.now ≡ 8) × (j < 192)) }
    ensures { result ≡ loaded_bit key.now iv.now j }
{
    if j < 80 {
        return string_bit(key, j);
    }
    if j < 144 {
        return string_bit(key, j - 80) ^ string_bit(iv, j - 80);
    }
    if j < 160 {
        return string_bit(key, j - 80)
            ^ string_bit(iv, j - 144)
            ^ string_bit(iv, j - 128)
            ^ string_bit(iv, j - 112)
            ^ string_bit(iv, j - 96);
    }
    string_bit(iv, j - 160) ^ string_bit(iv, j - 128) ^ 1
}

// Word i of the register before any turn.
fn load_word(key: &[u8], iv: &[u8], i: usize) -> u32
    requires { (length key.now ≡ 10) × ((length iv.now ≡ 8) × (i < 6)) }
    ensures { result ≡ joined_down 32 (λ j. loaded_bit key.now iv.now (32 * i + j)) }
{
    let mut w: u32 = 0;
    for j in 0..32 {
        w = w * 2 + load_bit(key, iv, 32 * i + j);
    }
    w
}

// The register before any turn.
pub fn load(key: &[u8], iv: &[u8]) -> [u32; 6]
    requires { (length key.now ≡ 10) × (length iv.now ≡ 8) }
    ensures { result ≡ loaded key.now iv.now }
{
    [
        load_word(key, iv, 0),
        load_word(key, iv, 1),
        load_word(key, iv, 2),
        load_word(key, iv, 3),
        load_word(key, iv, 4),
        load_word(key, iv, 5),
    ]
}

// InitNext in LFSR mode: four turns.
pub fn init_lfsr(a: [u32; 6]) -> [u32; 6]
    ensures { result ≡ init_next_lfsr a }
{
    mix(mix(mix(mix(a))))
}

// The register after all turns of LFSR mode.
fn mixed_in(a: [u32; 6]) -> [u32; 6]
    ensures { result ≡ iter 192 init_next_lfsr a }
{
    let mut w = a;
    for _ in 0..192usize {
        let next = init_lfsr(w);
        w = next;
    }
    w
}

// InitNext in BUFF mode: four turns, which feed the buffer.
pub fn init_buff(st: Decim) -> Decim
    ensures { result ≡ init_next st }
{
    let a = st.a;
    let r = feed_word(a);
    let f = f_word(a, r);
    let b = four(a, r);
    Decim {
        a: b,
        buffer: st.buffer.feed(f, 0),
    }
}

// The state with its buffer filled, after at most 1,024 rounds.
fn filled(st: Decim) -> Decim
    ensures { result ≡ buffer_filled 1024 st }
{
    let mut s = st;
    for _ in 0..1024usize {
        if 32 <= s.buffer.fill {
            return s;
        }
        s = init_buff(s);
    }
    s
}

impl Decim {
    // S(0) of key and IV.
    pub fn init(key: &[u8], iv: &[u8]) -> Decim
        requires key_len { length key.now ≡ 10 }
        requires iv_len { length iv.now ≡ 8 }
        ensures { result ≡ init_of key.now iv.now }
    {
        let a = mixed_in(load(key, iv));
        let buffer = Buffer {
            t: 0,
            b: 0,
            fill: 0,
        };
        let s = Decim { a, buffer };
        filled(s)
    }
}
