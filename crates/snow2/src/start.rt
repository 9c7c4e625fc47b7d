// The start of SNOW 2.0 from key and IV (ISO/IEC 18033-4, 8.2.2), with keys of 16 and of 32 bytes: the state before any step, and S(0).
// The caller must ensure the lengths of key and IV.
ghost use Rattle.std.specs.Prelude.{◌≡◌, length};
ghost use Rattle.snow2.specs.Cipher.{cells, nots, loaded128, loaded256, started, init128 as init128_of, init256 as init256_of};

use crate::Snow2;

// The complements of four words.
#[tactic(auto, unfolding(crate::specs::Cipher::nots))]
fn not4(k: [u32; 4]) -> [u32; 4]
    ensures { result ≡ nots k }
{
    [!k[0], !k[1], !k[2], !k[3]]
}

// s0..s15, with the words of a at the top, then those of b, c and d, and those of an IV.
#[tactic(auto, unfolding(crate::specs::Cipher::cells))]
fn arrange(a: [u32; 4], b: [u32; 4], c: [u32; 4], d: [u32; 4], v: [u32; 4]) -> [u32; 16]
    ensures { result ≡ cells a b c d v }
{
    [
        d[3],
        d[2],
        d[1],
        d[0],
        c[3],
        c[2],
        c[1],
        c[0],
        b[3],
        b[2] ^ v[0],
        b[1] ^ v[1],
        b[0],
        a[3] ^ v[2],
        a[2],
        a[1],
        a[0] ^ v[3],
    ]
}

// The state of a key of 16 bytes and an IV before any step.
#[tactic(auto, unfolding(crate::specs::Cipher::loaded128))]
pub fn load128(key: &[u8], iv: &[u8]) -> Snow2
    requires key_len { length key.now ≡ 16 }
    requires iv_len { length iv.now ≡ 16 }
    ensures { result ≡ loaded128 key.now iv.now }
{
    let k = words::four_at(key, 0);
    let n = not4(k);
    let s = arrange(k, n, k, n, words::four_at(iv, 0));
    Snow2 { s, r1: 0, r2: 0 }
}

// The state of a key of 32 bytes and an IV before any step.
#[tactic(auto, unfolding(crate::specs::Cipher::loaded256))]
pub fn load256(key: &[u8], iv: &[u8]) -> Snow2
    requires key_len { length key.now ≡ 32 }
    requires iv_len { length iv.now ≡ 16 }
    ensures { result ≡ loaded256 key.now iv.now }
{
    let h = words::four_at(key, 0);
    let l = words::four_at(key, 16);
    let s = arrange(h, l, not4(h), not4(l), words::four_at(iv, 0));
    Snow2 { s, r1: 0, r2: 0 }
}

// S(0) of a loaded state.
fn start(st: Snow2) -> Snow2
    ensures { result ≡ started st }
{
    let mut s = st;
    for _ in 0..32usize {
        s = s.step_init();
    }
    s.step()
}

impl Snow2 {
    // S(0) of a key of 16 bytes and an IV.
    #[tactic(auto, unfolding(crate::specs::Cipher::init128))]
    pub fn init128(key: &[u8], iv: &[u8]) -> Snow2
        requires key_len { length key.now ≡ 16 }
        requires iv_len { length iv.now ≡ 16 }
        ensures { result ≡ init128_of key.now iv.now }
    {
        start(load128(key, iv))
    }

    // S(0) of a key of 32 bytes and an IV.
    #[tactic(auto, unfolding(crate::specs::Cipher::init256))]
    pub fn init256(key: &[u8], iv: &[u8]) -> Snow2
        requires key_len { length key.now ≡ 32 }
        requires iv_len { length iv.now ≡ 16 }
        ensures { result ≡ init256_of key.now iv.now }
    {
        start(load256(key, iv))
    }
}
