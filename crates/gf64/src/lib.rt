// GF(2^64) of ISO/IEC 18033-4, 6.2.3: products of blocks, and inverses. A sum of two blocks is their exclusive or. Nothing is asked of the caller.
#![tactic(auto)]

ghost use Rattle.std.specs.Prelude.{◌≡◌};
ghost use Rattle.field.specs.Gf2.{if_one};
ghost use Rattle.gf64.specs.Gf64.{by_x, mul as mul_of, reciprocal as inverse_of};

// The digit d times a.
fn if_one(d: u64, a: u64) -> u64
    ensures { result ≡ if_one d a }
{
    if d == 0 {
        return 0;
    }
    a
}

// x a.
pub fn times_x(a: u64) -> u64
    ensures { result ≡ by_x a }
{
    (a << 1) ^ if_one((a >> 63) % 2, 27)
}

// The product of a and b, a digit of b at a time.
pub fn mul(a: u64, b: u64) -> u64
    ensures { result ≡ mul_of a b }
{
    let mut sum: u64 = 0;
    let mut x = a;
    let mut y = b;
    for _ in 0..64usize {
        sum ^= if_one(y % 2, x);
        x = times_x(x);
        y /= 2;
    }
    sum
}

// The inverse of a, and 0 of 0: the product of a^2, a^4, .., 63 factors.
pub fn inverse(a: u64) -> u64
    ensures { result ≡ inverse_of a }
{
    let mut r: u64 = 1;
    let mut s = a;
    for _ in 0..63usize {
        s = mul(s, s);
        r = mul(r, s);
    }
    r
}
