// Many products with one block of GF(2^64), from a table of its multiples: two digits of the other factor at a time. Nothing is asked of the caller; what
// `times` returns is a product where the table is one that `multiples` made.
#![tactic(auto)]

ghost use Rattle.std.specs.Prelude.{◌≡◌};
ghost use Rattle.gf64_table.specs.Multiples.{multiples_of, TimesBy};

use gf64::times_x;

// The multiples of a: for each two digits of a factor, at their place, its four products.
pub fn multiples(a: u64) -> [u64; 128]
    ensures { result ≡ multiples_of a }
{
    let mut t = [0u64; 128];
    let mut x = a;
    for at in (0..128).step_by(4) {
        let y = times_x(x);
        t[at] = 0;
        t[at + 1] = x;
        t[at + 2] = y;
        t[at + 3] = x ^ y;
        x = times_x(y);
    }
    t
}

// The product of b and the block whose multiples t holds.
pub fn times(t: &[u64; 128], b: u64) -> u64
    ensures { TimesBy t.now b result }
{
    let mut sum: u64 = 0;
    let mut y = b;
    for at in (0..128).step_by(4) {
        let d = (y % 4) as usize;
        sum ^= t[at + d];
        y /= 4;
    }
    sum
}
