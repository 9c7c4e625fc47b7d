// The constant tables of the ciphers, worked out from their rules: 256 entries over a polynomial p of GF(2^8), for every p.
// Where a second `ensures` gives the length, passing the array as a slice needs it.
#![tactic(auto)]

mod gf8;

ghost use Rattle.std.specs.Prelude.{◌≡◌, length};
ghost use Rattle.field.specs.Gf32.{over_alpha};
ghost use Rattle.table_rules.specs.Rules.{products_of, substitution_of};

// The products of v with the elements of GF(2^8) over p.
pub fn products(p: u16, v: u32) -> [u32; 256]
    ensures value { result ≡ products_of p v }
    ensures value_2 { 256 ≡ length result }
{
    let mut t = [0u32; 256];
    for k in 0..256 {
        t[k] = gf8::scaled(p, k as u8, v);
    }
    t
}

// AES's byte substitution over p.
pub fn substitution(p: u16) -> [u32; 256]
    ensures value { result ≡ substitution_of p }
    ensures value_2 { 256 ≡ length result }
{
    let mut t = [0u32; 256];
    for k in 0..256 {
        t[k] = words::wide(gf8::substituted(p, k as u8));
    }
    t
}

// The inverse of α over p, where c is y^4.
pub fn over_alpha(p: u16, c: u32) -> u32
    ensures { result ≡ over_alpha p c }
{
    let k = gf8::inverse(p, (c % 256) as u8);
    (words::wide(k) << 24) + (gf8::scaled(p, k, c) >> 8)
}
