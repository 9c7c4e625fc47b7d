// Products in GF(2^32), by a borrowed table, and the function T of AES's parts, by the table of this crate.
#![tactic(auto)]

pub mod tables;

ghost use Rattle.std.specs.Prelude.{◌≡◌};
ghost use Rattle.field.specs.Gf32.{AlphaTimes};
ghost use Rattle.field.specs.Aes.{fn_t};

// α w, in every field whose products with y^4 the table holds.
pub fn times_alpha(t: &[u32; 256], w: u32) -> u32
    ensures { AlphaTimes t.now w result }
{
    (w << 8) ^ t[(w >> 24) as usize]
}

// T: a byte in a higher place gives what it gives in the lowest, rotated.
pub fn sub_word(w: u32) -> u32
    ensures { result ≡ fn_t w }
{
    let [b3, b2, b1, b0] = w.to_be_bytes();
    let t = tables::column();
    let x0 = t[b0 as usize];
    let x1 = t[b1 as usize].rotate_left(8);
    let x2 = t[b2 as usize].rotate_left(16);
    let x3 = t[b3 as usize].rotate_left(24);
    x0 ^ x1 ^ x2 ^ x3
}
