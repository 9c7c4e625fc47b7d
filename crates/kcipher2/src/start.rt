// The start of KCipher-2 from key and IV (ISO/IEC 18033-4, 8.5.2): the state before any step, and S(0).
// The caller must ensure the lengths of key and IV, sixteen bytes each.
ghost use Rattle.std.specs.Prelude.{◌≡◌, length};
ghost use Rattle.kcipher2.specs.Cipher.{expanded, cells_a, cells_b, loaded, init as init_of};

use crate::Kcipher2;

// The next four words of the internal key.
fn expand(k: [u32; 4], rcon: u32) -> [u32; 4]
    ensures { result ≡ expanded k rcon }
{
    let x0 = k[0] ^ field::sub_word(k[3].rotate_left(8)) ^ rcon;
    let x1 = k[1] ^ x0;
    let x2 = k[2] ^ x1;
    let x3 = k[3] ^ x2;
    [x0, x1, x2, x3]
}

// A0..A4 of words 0 to 3 of the internal key, k, and 4 to 7, e.
#[tactic(auto, unfolding(crate::specs::Cipher::cells_a))]
fn arrange_a(k: [u32; 4], e: [u32; 4]) -> [u32; 5]
    ensures { result ≡ cells_a k e }
{
    [e[0], k[3], k[2], k[1], k[0]]
}

// B0..B10 of words 4 to 7 of the internal key, e, and 8 to 11, g, and of the IV's words v.
#[tactic(auto, unfolding(crate::specs::Cipher::cells_b))]
fn arrange_b(e: [u32; 4], g: [u32; 4], v: [u32; 4]) -> [u32; 11]
    ensures { result ≡ cells_b e g v }
{
    [
        g[2], g[3], v[0], v[1], g[0], g[1], v[2], v[3], e[3], e[1], e[2],
    ]
}

// The state of key and IV before any step.
#[tactic(auto, unfolding(crate::specs::Cipher::loaded, crate::specs::Cipher::arranged))]
pub fn load(key: &[u8], iv: &[u8]) -> Kcipher2
    requires key_len { length key.now ≡ 16 }
    requires iv_len { length iv.now ≡ 16 }
    ensures { result ≡ loaded key.now iv.now }
{
    let k = words::four_at(key, 0);
    let e = expand(k, 16777216);
    let g = expand(e, 33554432);
    let a = arrange_a(k, e);
    let b = arrange_b(e, g, words::four_at(iv, 0));
    Kcipher2 {
        a,
        b,
        r1: 0,
        l1: 0,
        r2: 0,
        l2: 0,
    }
}

impl Kcipher2 {
    // S(0) of key and IV.
    pub fn init(key: &[u8], iv: &[u8]) -> Kcipher2
        requires key_len { length key.now ≡ 16 }
        requires iv_len { length iv.now ≡ 16 }
        ensures { result ≡ init_of key.now iv.now }
    {
        let mut s = load(key, iv);
        for _ in 0..24usize {
            s = s.step_init();
        }
        s
    }
}
