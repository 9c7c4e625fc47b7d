// The start of Rabbit from key and IV (ISO/IEC 18033-4, Amd 1:2009, 7.3.2): the state of a key, with an IV in its counters, and S(0).
// The caller must ensure the lengths of key and IV, sixteen bytes and eight.
ghost use Rattle.std.specs.Prelude.{◌≡◌, ◌+◌, ◌*◌, ◌≤◌, length};
ghost use Rattle.words.specs.Word.{◌∥◌};
ghost use Rattle.words.specs.Lists.{iter, tab};
ghost use Rattle.rabbit.specs.Cipher.{next, half_at, arranged, loaded, master as master_of};
ghost use Rattle.rabbit.specs.Cipher.{iv_words, modified, with_iv, started, init as init_of};

use crate::Rabbit;

// The 16 bits whose low byte is s[i].
fn half_at(s: &[u8], i: usize) -> u16
    requires { i + 2 ≤ length s.now }
    ensures { result ≡ half_at s.now i }
{
    u16::from_le_bytes([s[i], s[i + 1]])
}

// h || l.
fn join(h: u16, l: u16) -> u32
    ensures { result ≡ h ∥ l }
{
    (h as u32) * 65536 + (l as u32)
}

// The parts of 16 bits of a string, from its start.
fn parts<const N: usize>(s: &[u8]) -> [u16; N]
    requires { length s.now ≡ 2 * N }
    ensures { result ≡ tab N (λ j. half_at s.now (2 * j)) }
{
    let mut p = [0u16; N];
    for i in 0..N {
        p[i] = half_at(s, 2 * i);
    }
    p
}

// X0..X7 of K0..K7.
fn arrange_x(k: [u16; 8]) -> [u32; 8]
    ensures { result ≡ (arranged k).x }
{
    [
        join(k[1], k[0]),
        join(k[6], k[5]),
        join(k[3], k[2]),
        join(k[0], k[7]),
        join(k[5], k[4]),
        join(k[2], k[1]),
        join(k[7], k[6]),
        join(k[4], k[3]),
    ]
}

// C0..C7 of K0..K7.
fn arrange_c(k: [u16; 8]) -> [u32; 8]
    ensures { result ≡ (arranged k).c }
{
    [
        join(k[4], k[5]),
        join(k[1], k[2]),
        join(k[6], k[7]),
        join(k[3], k[4]),
        join(k[0], k[1]),
        join(k[5], k[6]),
        join(k[2], k[3]),
        join(k[7], k[0]),
    ]
}

// The words that go into the counters, of an IV.
fn iv_words(h: [u16; 4]) -> [u32; 4]
    ensures { result ≡ iv_words h }
{
    [
        join(h[1], h[0]),
        join(h[3], h[1]),
        join(h[3], h[2]),
        join(h[2], h[0]),
    ]
}

// The counters of 7.3.2, step 4.
fn modify(x: [u32; 8], c: [u32; 8], v: [u32; 4]) -> [u32; 8]
    ensures { result ≡ modified x c v }
{
    let mut next = c;
    for i in 0..8 {
        next[i] = c[i] ^ x[(i + 4) % 8] ^ v[i % 4];
    }
    next
}

// The state of a key before any step.
pub fn load(key: &[u8]) -> Rabbit
    requires { length key.now ≡ 16 }
    ensures { result ≡ loaded key.now }
{
    let k = parts::<8>(key);
    let x = arrange_x(k);
    let c = arrange_c(k);
    Rabbit { x, c, b: 0 }
}

// The state with an IV in its counters.
pub fn add_iv(st: Rabbit, iv: &[u8]) -> Rabbit
    requires { length iv.now ≡ 8 }
    ensures { result ≡ with_iv st iv.now }
{
    let x = st.x;
    let old = st.c;
    let c = modify(x, old, iv_words(parts::<4>(iv)));
    Rabbit { x, c, b: st.b }
}

// The state after four steps.
fn four(st: Rabbit) -> Rabbit
    ensures { result ≡ iter 4 next st }
{
    st.step().step().step().step()
}

impl Rabbit {
    // The state that a key keeps for every IV.
    pub fn master(key: &[u8]) -> Rabbit
        requires { length key.now ≡ 16 }
        ensures { result ≡ master_of key.now }
    {
        four(load(key))
    }

    // S(0) of a key's state and an IV.
    pub fn start(self, iv: &[u8]) -> Rabbit
        requires { length iv.now ≡ 8 }
        ensures { result ≡ started self iv.now }
    {
        four(add_iv(self, iv)).step()
    }

    // S(0) of key and IV: `start` of `master`, its steps written out, since calls of the two would take a twentieth of the time of an open.
    pub fn init(key: &[u8], iv: &[u8]) -> Rabbit
        requires key_len { length key.now ≡ 16 }
        requires iv_len { length iv.now ≡ 8 }
        ensures { result ≡ init_of key.now iv.now }
    {
        four(add_iv(four(load(key)), iv)).step()
    }
}
