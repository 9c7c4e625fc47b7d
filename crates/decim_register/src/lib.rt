// The register of Decim v2 (ISO/IEC 18033-4, 8.4.7 to 8.4.9) in six words, the first bit on top: what it feeds and hands on in 32 turns at once, and its moves.
#![tactic(auto)]

ghost use Rattle.std.specs.Prelude.{◌≡◌, [], ◌∷◌, ◌+◌, ◌*◌, ◌/◌, ◌%◌, ◌^◌, ◌<◌};
ghost use Rattle.words.specs.Lists.{iter, shifted};
ghost use Rattle.decim_register.specs.Register.{moved_in, mixed, clocked};
ghost use Rattle.decim_register.specs.Wide.{spliced, known_low, known_high, solution, fed_word, lf_word, f_word, added, counted};

// Sums of bits modulo 4, one for each place of a word: their lowest digits, and the others.
#[derive(Clone, Copy)]
pub struct Sum {
    pub low: u32,
    pub high: u32,
}

// x moved up by m bits, with the top bits of y after it.
fn splice(x: u32, y: u32, m: u32) -> u32
    requires { (0 < m) × (m < 32) }
    ensures { result ≡ spliced x y m }
{
    (x << m) + (y >> (32 - m))
}

// What the first three words feed.
fn known_low(x: u32, y: u32, z: u32) -> u32
    ensures { result ≡ known_low x y z }
{
    x ^ splice(x, y, 3)
        ^ splice(x, y, 4)
        ^ splice(x, y, 23)
        ^ splice(y, z, 4)
        ^ splice(y, z, 5)
        ^ splice(y, z, 28)
        ^ splice(y, z, 29)
}

// What the last three words feed.
fn known_high(x: u32, y: u32, z: u32) -> u32
    ensures { result ≡ known_high x y z }
{
    splice(x, y, 2) ^ splice(x, y, 19) ^ splice(y, z, 18) ^ (z << 15) ^ (z << 16) ^ (z << 27)
}

// The word that is x but for its own bits five, sixteen and seventeen places up.
fn solve(x: u32) -> u32
    ensures { result ≡ solution x }
{
    let y = x ^ ((x >> 5) ^ ((x >> 16) ^ (x >> 17)));
    let z = y ^ (y >> 10);
    z ^ (z >> 20)
}

// What the register feeds in 32 turns.
pub fn feed_word(a: [u32; 6]) -> u32
    ensures { result ≡ fed_word a }
{
    solve(known_low(a[0], a[1], a[2]) ^ known_high(a[3], a[4], a[5]))
}

// The register moved by a word, with r as its last.
pub fn moved(a: [u32; 6], r: u32) -> [u32; 6]
    ensures { result ≡ shifted a r }
{
    [a[1], a[2], a[3], a[4], a[5], r]
}

impl Sum {
    // A word of bits more.
    fn add(self, w: u32) -> Sum
        ensures { result ≡ added self w }
    {
        Sum {
            low: self.low ^ w,
            high: self.high ^ (self.low & w),
        }
    }

    // The bits of LF from the first three words.
    fn count_low(self, x: u32, y: u32, z: u32) -> Sum
        ensures { result ≡ counted self (spliced x y 13 ∷ spliced x y 28 ∷ spliced y z 13 ∷ spliced y z 22 ∷ []) }
    {
        self.add(splice(x, y, 13))
            .add(splice(x, y, 28))
            .add(splice(y, z, 13))
            .add(splice(y, z, 22))
    }

    // Those from the third word to the sixth.
    fn count_middle(self, x: u32, y: u32, z: u32, w: u32) -> Sum
        ensures { result ≡ counted self (spliced x y 1 ∷ spliced y z 8 ∷ spliced y z 15 ∷ spliced z w 16 ∷ []) }
    {
        self.add(splice(x, y, 1))
            .add(splice(y, z, 8))
            .add(splice(y, z, 15))
            .add(splice(z, w, 16))
    }

    // Those from the sixth word and what is fed.
    fn count_high(self, x: u32, y: u32) -> Sum
        ensures { result ≡ counted self (spliced x y 2 ∷ spliced x y 12 ∷ spliced x y 18 ∷ spliced x y 26 ∷ spliced x y 31 ∷ []) }
    {
        self.add(splice(x, y, 2))
            .add(splice(x, y, 12))
            .add(splice(x, y, 18))
            .add(splice(x, y, 26))
            .add(splice(x, y, 31))
    }
}

// LF of 8.4.8 in 32 turns, in which the register feeds r.
fn filter_word(a: [u32; 6], r: u32) -> u32
    requires { r ≡ fed_word a }
    ensures { result ≡ lf_word a }
{
    let none = Sum { low: 0, high: 0 };
    let s = none
        .count_low(a[0], a[1], a[2])
        .count_middle(a[2], a[3], a[4], a[5])
        .count_high(a[5], r);
    s.low ^ s.high
}

// What the register hands on in 32 turns, in which it feeds r.
pub fn f_word(a: [u32; 6], r: u32) -> u32
    requires { r ≡ fed_word a }
    ensures { result ≡ f_word a }
{
    splice(a[0], a[1], 1) ^ filter_word(a, r)
}

// The register after four turns, in which it feeds the top bits of r.
pub fn four(a: [u32; 6], r: u32) -> [u32; 6]
    requires { r ≡ fed_word a }
    ensures { result ≡ iter 4 clocked a }
{
    let b = a[1];
    let c = a[2];
    let d = a[3];
    let e = a[4];
    let last = a[5];
    [
        splice(a[0], b, 4),
        splice(b, c, 4),
        splice(c, d, 4),
        splice(d, e, 4),
        splice(e, last, 4),
        splice(last, r, 4),
    ]
}

// The register moved by one bit, with r as its last.
fn move_in(a: [u32; 6], r: u32) -> [u32; 6]
    requires { r < 2 }
    ensures { result ≡ moved_in a r }
{
    let b = a[1];
    let c = a[2];
    let d = a[3];
    let e = a[4];
    let last = a[5];
    [
        splice(a[0], b, 1),
        splice(b, c, 1),
        splice(c, d, 1),
        splice(d, e, 1),
        splice(e, last, 1),
        (last << 1) + r,
    ]
}

// The register after a turn of LFSR mode, in which LF is fed too.
pub fn mix(a: [u32; 6]) -> [u32; 6]
    ensures { result ≡ mixed a }
{
    let r = feed_word(a);
    let x = r ^ filter_word(a, r);
    move_in(a, x >> 31)
}
