// GF(2^8) over a polynomial p of degree 8, worked out digit by digit: products, the inverse, AES's substitution, and a word times an element.
ghost use Rattle.std.specs.Prelude.{◌≡◌};
ghost use Rattle.field.specs.Gf2.{if_one, times_x};
ghost use Rattle.field.specs.Gf8.{mul8, inverse as inverse_of};
ghost use Rattle.field.specs.Gf32.{scaled as scaled_by};
ghost use Rattle.field.specs.Aes.{affine};

// The digit d times a.
fn if_one(d: u8, a: u8) -> u8
    ensures { result ≡ if_one d a }
{
    if d == 0 {
        return 0;
    }
    a
}

// x a modulo p.
fn times_x(p: u16, a: u8) -> u8
    ensures { result ≡ times_x 8 p a }
{
    let low = (p % 256) as u8;
    (a << 1) ^ if_one((a >> 7) % 2, low)
}

// a b modulo p.
pub fn product(p: u16, a: u8, b: u8) -> u8
    ensures { result ≡ mul8 p a b }
{
    let mut sum: u8 = 0;
    let mut x = a;
    let mut y = b;
    for _ in 0..8usize {
        sum ^= if_one(y % 2, x);
        x = times_x(p, x);
        y /= 2;
    }
    sum
}

// 1/a modulo p, and 0 of 0: the product of a^2, a^4, .., a^128.
pub fn inverse(p: u16, a: u8) -> u8
    ensures { result ≡ inverse_of p a }
{
    let mut r: u8 = 1;
    let mut s = a;
    for _ in 0..7usize {
        s = product(p, s, s);
        r = product(p, r, s);
    }
    r
}

// AES's affine map.
fn mapped(a: u8) -> u8
    ensures { result ≡ affine a }
{
    a ^ a.rotate_left(1) ^ a.rotate_left(2) ^ a.rotate_left(3) ^ a.rotate_left(4) ^ 0x63
}

// What AES's substitution makes of a, over p.
pub fn substituted(p: u16, a: u8) -> u8
    ensures { result ≡ affine (inverse_of p a) }
{
    mapped(inverse(p, a))
}

// The word w times k, over p.
pub fn scaled(p: u16, k: u8, w: u32) -> u32
    ensures { result ≡ scaled_by p k w }
{
    let b = words::bytes(w);
    words::join(
        product(p, b[0], k),
        product(p, b[1], k),
        product(p, b[2], k),
        product(p, b[3], k),
    )
}
