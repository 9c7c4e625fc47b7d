// The start of ZUC from key and IV (ISO/IEC 18033-4, 8.6.2): the state before any step, and S(0).
// The caller must ensure the lengths of key and IV, sixteen bytes each.
ghost use Rattle.std.specs.Prelude.{◌≡◌, length};
ghost use Rattle.zuc.specs.Cipher.{cell_of, loaded, init as init_of};

use crate::Zuc;

// A cell of 8.6.2 a).
fn cell(k: u8, x: u16, iv: u8) -> u32
    ensures { result ≡ cell_of k x iv }
{
    (k as u32) * 8388608 + (x as u32) * 256 + (iv as u32)
}

// The state of key and IV before any step.
pub fn load(key: &[u8], iv: &[u8]) -> Zuc
    requires key_len { length key.now ≡ 16 }
    requires iv_len { length iv.now ≡ 16 }
    ensures { result ≡ loaded key.now iv.now }
{
    let d = zuc_tables::d();
    let mut a = [0u32; 16];
    for i in 0..16 {
        a[i] = cell(key[i], d[i], iv[i]);
    }
    Zuc { a, r1: 0, r2: 0 }
}

impl Zuc {
    // S(0) of key and IV.
    pub fn init(key: &[u8], iv: &[u8]) -> Zuc
        requires key_len { length key.now ≡ 16 }
        requires iv_len { length iv.now ≡ 16 }
        ensures { result ≡ init_of key.now iv.now }
    {
        let mut s = load(key, iv);
        for _ in 0..32usize {
            s = s.step_init();
        }
        s.step()
    }
}
