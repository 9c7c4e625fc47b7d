// KCipher-2 (ISO/IEC 18033-4, 8.5): a state by value, its steps in both modes and its output. Its start from key and IV is in `start`.
#![tactic(auto)]

pub mod start;
mod units;

ghost use Rattle.std.specs.Prelude.{◌≡◌, ◌<◌};
ghost use Rattle.words.specs.Lists.{shifted};
ghost use Rattle.kcipher2.specs.Cipher.{by_digit as pick_of, nlf as nlf_of, one_or_two, three_or_none, strm_high, strm_low, strm, fed_a, fed_b};
ghost use Rattle.kcipher2.specs.Cipher.{pushed as moved_of, sum_right as right_of, sum_left as left_of, clocked, next, next_init};

// A0..A4, B0..B10, R1, L1, R2 and L2.
#[derive(Clone, Copy)]
pub struct Kcipher2 {
    pub a: [u32; 5],
    pub b: [u32; 11],
    pub r1: u32,
    pub l1: u32,
    pub r2: u32,
    pub l2: u32,
}

// NLF of 8.5.10.
fn nlf(a: u32, b: u32, c: u32, d: u32) -> u32
    ensures { result ≡ nlf_of a b c d }
{
    a.wrapping_add(b) ^ c ^ d
}

// x where the digit e is 1, and y where it is 0, without a branch.
fn pick(e: u32, x: u32, y: u32) -> u32
    requires { e < 2 }
    ensures { result ≡ pick_of e x y }
{
    y ^ ((x ^ y) * e)
}

// The product of w with alpha 1 where the digit e is 1, and with alpha 2 where it is 0.
fn one_or_two(e: u32, w: u32) -> u32
    requires { e < 2 }
    ensures { result ≡ one_or_two e w }
{
    let m1 = kcipher2_tables::alpha1();
    let m2 = kcipher2_tables::alpha2();
    pick(e, field::times_alpha(m1, w), field::times_alpha(m2, w))
}

// The product of w with alpha 3 where the digit e is 1, and w where it is 0.
fn three_or_none(e: u32, w: u32) -> u32
    requires { e < 2 }
    ensures { result ≡ three_or_none e w }
{
    pick(e, field::times_alpha(kcipher2_tables::alpha3(), w), w)
}

// A register of five words moved by one, with x as its last.
fn shift5(a: [u32; 5], x: u32) -> [u32; 5]
    ensures { result ≡ shifted a x }
{
    [a[1], a[2], a[3], a[4], x]
}

// A register of eleven words moved by one, with x as its last.
fn shift11(b: [u32; 11], x: u32) -> [u32; 11]
    ensures { result ≡ shifted b x }
{
    [
        b[1], b[2], b[3], b[4], b[5], b[6], b[7], b[8], b[9], b[10], x,
    ]
}

impl Kcipher2 {
    // The high word of Strm.
    #[tactic(auto, unfolding(crate::specs::Cipher::strm_high))]
    fn high(self) -> u32
        ensures { result ≡ strm_high self }
    {
        let a = self.a;
        let b = self.b;
        nlf(b[10], self.l2, self.l1, a[0])
    }

    // The low word of Strm.
    #[tactic(auto, unfolding(crate::specs::Cipher::strm_low))]
    fn low(self) -> u32
        ensures { result ≡ strm_low self }
    {
        let a = self.a;
        let b = self.b;
        nlf(b[0], self.r2, self.r1, a[4])
    }

    // The word that comes into A.
    fn feed_a(self) -> u32
        ensures { result ≡ fed_a self }
    {
        let a = self.a;
        field::times_alpha(kcipher2_tables::alpha0(), a[0]) ^ a[3]
    }

    // The word that comes into B.
    #[tactic(auto, unfolding(crate::specs::Cipher::fed_b))]
    fn feed_b(self) -> u32
        ensures { result ≡ fed_b self }
    {
        let a = self.a;
        let b = self.b;
        let x = one_or_two(a[2] / 1073741824 % 2, b[0]);
        let y = three_or_none(a[2] / 2147483648 % 2, b[8]);
        x ^ b[1] ^ b[6] ^ y
    }

    // The word whose T is the next R1.
    fn right(self) -> u32
        ensures { result ≡ right_of self }
    {
        let b = self.b;
        self.l2.wrapping_add(b[9])
    }

    // The word whose T is the next L1.
    fn left(self) -> u32
        ensures { result ≡ left_of self }
    {
        let b = self.b;
        self.r2.wrapping_add(b[4])
    }

    // A and B moved, with the words x and y, and the words of the nonlinear part.
    fn moved(self, x: u32, y: u32, r1: u32, l1: u32, r2: u32, l2: u32) -> Kcipher2
        ensures { result ≡ moved_of self x y r1 l1 r2 l2 }
    {
        let a = self.a;
        let b = self.b;
        let moved_a = shift5(a, x);
        let moved_b = shift11(b, y);
        Kcipher2 {
            a: moved_a,
            b: moved_b,
            r1,
            l1,
            r2,
            l2,
        }
    }

    // The next state, with the words x for A and y for B.
    #[tactic(auto, unfolding(crate::specs::Cipher::clocked))]
    fn clock(self, x: u32, y: u32) -> Kcipher2
        ensures { result ≡ clocked self x y }
    {
        let r1 = field::sub_word(self.right());
        let l1 = field::sub_word(self.left());
        let r2 = field::sub_word(self.r1);
        let l2 = field::sub_word(self.l1);
        self.moved(x, y, r1, l1, r2, l2)
    }

    // A step in INIT mode.
    #[tactic(auto, unfolding(crate::specs::Cipher::next_init))]
    pub fn step_init(self) -> Kcipher2
        ensures { result ≡ next_init self }
    {
        let x = self.feed_a() ^ self.low();
        let y = self.feed_b() ^ self.high();
        self.clock(x, y)
    }

    // The next state.
    #[tactic(auto, unfolding(crate::specs::Cipher::next))]
    #[inline(always)]
    pub fn step(self) -> Kcipher2
        ensures { result ≡ next self }
    {
        let x = self.feed_a();
        let y = self.feed_b();
        self.clock(x, y)
    }

    // The two words of keystream, the high one first.
    #[tactic(auto, unfolding(crate::specs::Cipher::strm))]
    pub fn output(self) -> [u32; 2]
        ensures { result ≡ strm self }
    {
        [self.high(), self.low()]
    }
}
