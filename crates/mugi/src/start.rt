// The start of MUGI from key and IV (ISO/IEC 18033-4, 8.1.2): the state of a key, with an IV, and S(0).
// The caller must ensure the lengths of key and IV, sixteen bytes each.
ghost use Rattle.std.specs.Prelude.{◌≡◌, ◌+◌, ◌≤◌, length};
ghost use Rattle.words.specs.Lists.{iter};
ghost use Rattle.mugi.specs.Cipher.{spread as spread_of, turned, keyed as keyed_of, added, with_iv, init as init_of};

use crate::{Mugi, f, stir};
use blocks::block_at;

// Three blocks of a key or an IV.
pub fn spread(k: &[u8]) -> [u64; 3]
    requires { length k.now ≡ 16 }
    ensures { result ≡ spread_of k.now }
{
    let k0 = block_at(k, 0);
    let k1 = block_at(k, 8);
    [
        k0,
        k1,
        k0.rotate_left(7) ^ k1.rotate_right(7) ^ 0x6a09e667f3bcc908,
    ]
}

// The blocks of an IV added to a.
pub fn add(a: [u64; 3], v: [u64; 3]) -> [u64; 3]
    ensures { result ≡ added a v }
{
    [a[0] ^ v[0], a[1] ^ v[1], a[2] ^ v[2]]
}

// A turn of rho1, without b.
pub fn turn(a: [u64; 3]) -> [u64; 3]
    ensures { result ≡ turned a }
{
    let x = f(a[1]);
    stir(a, x, x)
}

// Sixteen turns.
fn turns(a: [u64; 3]) -> [u64; 3]
    ensures { result ≡ iter 16 turned a }
{
    let mut x = a;
    for _ in 0..16usize {
        let y = turn(x);
        x = y;
    }
    x
}

// The state of a key: sixteen turns, and a0 of each in b.
fn keyed(key: &[u8]) -> Mugi
    requires { length key.now ≡ 16 }
    ensures { result ≡ keyed_of key.now }
{
    let mut a = spread(key);
    let mut b = [0u64; 16];
    for i in 0..16 {
        a = turn(a);
        b[15 - i] = a[0];
    }
    Mugi { a, b }
}

// The state with an IV: it is added to a, and sixteen turns follow.
fn with_iv(st: Mugi, iv: &[u8]) -> Mugi
    requires { length iv.now ≡ 16 }
    ensures { result ≡ with_iv st iv.now }
{
    let a = st.a;
    let b = st.b;
    let v = spread(iv);
    let mixed_a = turns(add(a, v));
    Mugi { a: mixed_a, b }
}

impl Mugi {
    // S(0) of key and IV.
    pub fn init(key: &[u8], iv: &[u8]) -> Mugi
        requires key_len { length key.now ≡ 16 }
        requires iv_len { length iv.now ≡ 16 }
        ensures { result ≡ init_of key.now iv.now }
    {
        let mut s = with_iv(keyed(key), iv);
        for _ in 0..16usize {
            s = s.step();
        }
        s
    }
}
