// MUGI (ISO/IEC 18033-4, 8.1): a state by value, its step and its output. Its start from key and IV is in `start`.
#![tactic(auto)]

pub mod start;
mod units;

ghost use Rattle.std.specs.Prelude.{◌≡◌, ◌+◌, ◌*◌, ◌/◌, ◌%◌, ◌^◌};
ghost use Rattle.words.specs.Word.{◌∥◌, high, low};
ghost use Rattle.mugi.specs.Cipher.{mixed_half as mixed_of, f as f_of, lambda1, next, strm};
ghost use Rattle.mugi.specs.Steps.{stirred, first as first_of, second as second_of, moved as moved_of};

use blocks::{left, right};

// a0..a2 and b0..b15.
#[derive(Clone, Copy)]
pub struct Mugi {
    pub a: [u64; 3],
    pub b: [u64; 16],
}

// M of what S_R makes of the bytes of w, its halves exchanged: a byte in another place gives what it gives in the highest, rotated.
fn mixed(w: u32) -> u32
    ensures { result ≡ low (mixed_of w) ∥ high (mixed_of w) }
{
    let t = mugi_tables::mixing();
    let b = words::bytes(w);
    let x0 = t[b[0] as usize];
    let x1 = t[b[1] as usize];
    let x2 = t[b[2] as usize];
    let x3 = t[b[3] as usize];
    x0.rotate_left(16) ^ x1.rotate_left(8) ^ x2 ^ x3.rotate_left(24)
}

// Q4 Q5 Q2 Q3 Q0 Q1 Q6 Q7, of l, which is Q2 Q3 Q0 Q1, and r, which is Q6 Q7 Q4 Q5.
fn shuffle(l: u32, r: u32) -> u64
    ensures { result ≡ r % 2 ^ 16 * 2 ^ 48 + l * 2 ^ 16 + r / 2 ^ 16 }
{
    (r as u64).rotate_left(48) + (l as u64) * 65536
}

// F, of X xor T.
fn f(x: u64) -> u64
    ensures { result ≡ f_of x }
{
    let l = mixed(left(x));
    let r = mixed(right(x));
    shuffle(l, r)
}

// a after rho1, where F gives x and y.
fn stir(a: [u64; 3], x: u64, y: u64) -> [u64; 3]
    ensures { result ≡ stirred a x y }
{
    [
        a[1],
        a[2] ^ x ^ 0xbb67ae8584caa73b,
        a[0] ^ y ^ 0x3c6ef372fe94f82b,
    ]
}

// The function lambda1.
fn lambda(b: [u64; 16], x: u64) -> [u64; 16]
    ensures { result ≡ lambda1 b x }
{
    let y = b[13].rotate_left(32);
    [
        b[15] ^ x,
        b[0],
        b[1],
        b[2],
        b[3] ^ b[7],
        b[4],
        b[5],
        b[6],
        b[7],
        b[8],
        b[9] ^ y,
        b[10],
        b[11],
        b[12],
        b[13],
        b[14],
    ]
}

impl Mugi {
    // What F gives for a1.
    fn first(self) -> u64
        ensures { result ≡ first_of self }
    {
        let a = self.a;
        let b = self.b;
        f(a[1] ^ b[4])
    }

    // What F gives for a2.
    fn second(self) -> u64
        ensures { result ≡ second_of self }
    {
        let a = self.a;
        let b = self.b;
        f(a[1] ^ b[10].rotate_left(17))
    }

    // The state after a step where F gives x and y.
    fn moved(self, x: u64, y: u64) -> Mugi
        ensures { result ≡ moved_of self x y }
    {
        let a = self.a;
        let b = self.b;
        let moved_a = stir(a, x, y);
        let moved_b = lambda(b, a[0]);
        Mugi {
            a: moved_a,
            b: moved_b,
        }
    }

    // The next state.
    #[inline(always)]
    pub fn step(self) -> Mugi
        ensures { result ≡ next self }
    {
        let x = self.first();
        let y = self.second();
        self.moved(x, y)
    }

    // The block of keystream.
    pub fn output(self) -> u64
        ensures { result ≡ strm self }
    {
        let blocks = self.a;
        blocks[2]
    }
}
