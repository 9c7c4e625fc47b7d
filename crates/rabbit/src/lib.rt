// Rabbit (ISO/IEC 18033-4, 8.3; Amd 1:2009, 7.3): a state by value, its step and its output. Its start from key and IV is in `start`.
#![tactic(auto)]

pub mod start;
mod units;

ghost use Rattle.std.specs.Prelude.{◌≡◌, ◌+◌, ◌^◌, ◌<◌};
ghost use Rattle.words.specs.Word.{◌+₃₂◌, rotl};
ghost use Rattle.rabbit.specs.Cipher.{g as g_of, counted, gs as gs_of, mixed, part as part_of, next, strm};

// X0..X7, C0..C7 and the carry.
#[derive(Clone, Copy)]
pub struct Rabbit {
    pub x: [u32; 8],
    pub c: [u32; 8],
    pub b: u32,
}

// The counters after a step, and the carry out of the last.
#[derive(Clone, Copy)]
pub struct Counted {
    pub c: [u32; 8],
    pub b: u32,
}

// temp of 7.3.3, step 3.
fn sum(c: u32, a: u32, b: u32) -> u64
    ensures { (result ≡ c + a + b) × (result < 2 ^ 34) }
{
    (c as u64) + (a as u64) + (b as u64)
}

// 7.3.3, steps 2 to 4.
fn count(c: [u32; 8], b: u32) -> Counted
    ensures { result ≡ counted c b }
{
    let a = rabbit_tables::a();
    let mut next = c;
    let mut carry = b;
    for i in 0..8 {
        let temp = sum(c[i], a[i], carry);
        next[i] = (temp % 4294967296) as u32;
        carry = (temp / 4294967296) as u32;
    }
    Counted { c: next, b: carry }
}

// g of 7.3.5.
fn g(u: u32, v: u32) -> u32
    ensures { result ≡ g_of u v }
{
    let t = u.wrapping_add(v) as u64;
    let square = t * t;
    ((square % 4294967296) as u32) ^ ((square / 4294967296) as u32)
}

// G0..G7 of 7.3.3, step 5.
fn gs(x: [u32; 8], c: [u32; 8]) -> [u32; 8]
    ensures { result ≡ gs_of x c }
{
    [
        g(x[0], c[0]),
        g(x[1], c[1]),
        g(x[2], c[2]),
        g(x[3], c[3]),
        g(x[4], c[4]),
        g(x[5], c[5]),
        g(x[6], c[6]),
        g(x[7], c[7]),
    ]
}

// An even X of 7.3.3, step 6.
fn even(a: u32, b: u32, c: u32) -> u32
    ensures { result ≡ a +₃₂ rotl 16 b +₃₂ rotl 16 c }
{
    a.wrapping_add(b.rotate_left(16))
        .wrapping_add(c.rotate_left(16))
}

// An odd X of 7.3.3, step 6.
fn odd(a: u32, b: u32, c: u32) -> u32
    ensures { result ≡ a +₃₂ rotl 8 b +₃₂ c }
{
    a.wrapping_add(b.rotate_left(8)).wrapping_add(c)
}

// X0..X7 of G0..G7.
fn mix(g: [u32; 8]) -> [u32; 8]
    ensures { result ≡ mixed g }
{
    [
        even(g[0], g[7], g[6]),
        odd(g[1], g[0], g[7]),
        even(g[2], g[1], g[0]),
        odd(g[3], g[2], g[1]),
        even(g[4], g[3], g[2]),
        odd(g[5], g[4], g[3]),
        even(g[6], g[5], g[4]),
        odd(g[7], g[6], g[5]),
    ]
}

// 32 bits of Z: the halves of v, with the low half of w and the high half of y.
fn part(v: u32, w: u32, y: u32) -> u32
    ensures { result ≡ part_of v w y }
{
    v ^ ((w % 65536) * 65536 + y / 65536)
}

impl Rabbit {
    // The next state.
    #[inline(always)]
    pub fn step(self) -> Rabbit
        ensures { result ≡ next self }
    {
        let x = self.x;
        let old = self.c;
        let counted = count(old, self.b);
        let c = counted.c;
        let mixed = mix(gs(x, c));
        Rabbit {
            x: mixed,
            c,
            b: counted.b,
        }
    }

    // The four words of keystream, the lowest first.
    pub fn output(self) -> [u32; 4]
        ensures { result ≡ strm self }
    {
        let x = self.x;
        [
            part(x[0], x[3], x[5]),
            part(x[2], x[5], x[7]),
            part(x[4], x[7], x[1]),
            part(x[6], x[1], x[3]),
        ]
    }
}
