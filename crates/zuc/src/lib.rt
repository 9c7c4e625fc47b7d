// ZUC (ISO/IEC 18033-4:2011/Amd 1:2020, 8.6): a state by value, its steps in both modes and its output. Its start from key and IV is in `start`.
#![tactic(auto)]

pub mod start;
mod units;

ghost use Rattle.std.specs.Prelude.{◌≡◌, ◌+◌, ◌-◌, ◌/◌, ◌%◌, ◌^◌, ◌<◌, ◌≤◌};
ghost use Rattle.words.specs.Word.{◌∥◌, low, high};
ghost use Rattle.zuc.specs.Cipher.{l1, l2, ss, cell_high, w as word_w, weighed, mended, next_r1, next_r2, clocked, next, next_init, strm};

// A0..A15, R1 and R2.
#[derive(Clone, Copy)]
pub struct Zuc {
    pub a: [u32; 16],
    pub r1: u32,
    pub r2: u32,
}

// L1 of 8.6.6.
fn linear1(x: u32) -> u32
    ensures { result ≡ l1 x }
{
    x ^ x.rotate_left(2) ^ x.rotate_left(10) ^ x.rotate_left(18) ^ x.rotate_left(24)
}

// L2 of 8.6.6.
fn linear2(x: u32) -> u32
    ensures { result ≡ l2 x }
{
    x ^ x.rotate_left(8) ^ x.rotate_left(14) ^ x.rotate_left(22) ^ x.rotate_left(30)
}

// SS of 8.6.5.
#[tactic(auto, unfolding(crate::specs::Cipher::ss))]
fn substitute(x: u32) -> u32
    ensures { result ≡ ss x }
{
    let [x3, x2, x1, x0] = x.to_be_bytes();
    let t1 = zuc_tables::sub1();
    let t2 = zuc_tables::sub2();
    words::join(
        t1[x3 as usize],
        t2[x2 as usize],
        t1[x1 as usize],
        t2[x0 as usize],
    )
}

// The leftmost 16 bits of cell a, then the rightmost 16 of cell b.
fn high_low(a: u32, b: u32) -> u32
    ensures { result ≡ cell_high a ∥ low b }
{
    (a / 32768 % 65536) * 65536 + b % 65536
}

// The rightmost 16 bits of cell a, then the leftmost 16 of cell b.
fn low_high(a: u32, b: u32) -> u32
    ensures { result ≡ low a ∥ cell_high b }
{
    (a % 65536) * 65536 + b / 32768 % 65536
}

// The rightmost 16 bits of word a, then the leftmost 16 of word b.
fn cross(a: u32, b: u32) -> u32
    ensures { result ≡ low a ∥ high b }
{
    (a % 65536) * 65536 + b / 65536
}

// The next R1, of W1 and W2.
#[tactic(auto, unfolding(crate::specs::Cipher::next_r1))]
fn next_r1(w1: u32, w2: u32) -> u32
    ensures { result ≡ next_r1 w1 w2 }
{
    substitute(linear1(cross(w1, w2)))
}

// The next R2, of W1 and W2.
#[tactic(auto, unfolding(crate::specs::Cipher::next_r2))]
fn next_r2(w1: u32, w2: u32) -> u32
    ensures { result ≡ next_r2 w1 w2 }
{
    substitute(linear2(cross(w2, w1)))
}

// The sum of 8.6.3 c), whose remainder is V, with 2^31 - 1 added: the remainder is the same, and the sum is never 0.
#[tactic(auto, unfolding(crate::specs::Cipher::weighed))]
fn weigh(a15: u32, a13: u32, a10: u32, a4: u32, a0: u32) -> u64
    ensures { (result % (2 ^ 31 - 1) ≡ weighed a15 a13 a10 a4 a0) × ((1 ≤ result) × (result < 2 ^ 54)) }
{
    32768 * (a15 as u64)
        + 131072 * (a13 as u64)
        + 2097152 * (a10 as u64)
        + 1048576 * (a4 as u64)
        + 257 * (a0 as u64)
        + 2147483647
}

// The part above 31 bits, added to the low part.
fn fold(x: u64) -> u64
    ensures { result ≡ x % 2 ^ 31 + x / 2 ^ 31 }
{
    x % 2147483648 + x / 2147483648
}

// The last fold. 31 bits hold what comes out, and a remainder of 0 comes out as 2^31 - 1.
fn last_fold(x: u64) -> u32
    requires { (1 ≤ x) × (x < 2 ^ 32 - 1) }
    ensures { result ≡ mended (x % (2 ^ 31 - 1)) }
{
    fold(x) as u32
}

// The feedback of a sum: two folds are enough.
fn feedback(sum: u64) -> u32
    requires { (1 ≤ sum) × (sum < 2 ^ 62) }
    ensures { result ≡ mended (sum % (2 ^ 31 - 1)) }
{
    let once = fold(sum);
    last_fold(once)
}

// The feedback in INIT mode, where W without its lowest bit is added to the sum.
fn feedback_init(sum: u64, w: u32) -> u32
    requires { (1 ≤ sum) × (sum < 2 ^ 54) }
    ensures { result ≡ mended ((sum % (2 ^ 31 - 1) + w / 2) % (2 ^ 31 - 1)) }
{
    let with_w = sum + (w / 2) as u64;
    feedback(with_w)
}

impl Zuc {
    // W of 8.6.3 b).
    #[tactic(auto, unfolding(crate::specs::Cipher::w))]
    fn word(self) -> u32
        ensures { result ≡ word_w self }
    {
        let a = self.a;
        (high_low(a[15], a[14]) ^ self.r1).wrapping_add(self.r2)
    }

    // The next state, with the feedback x.
    #[tactic(auto, unfolding(crate::specs::Cipher::clocked))]
    fn clock(self, x: u32) -> Zuc
        ensures { result ≡ clocked self x }
    {
        let a = self.a;
        let w1 = self.r1.wrapping_add(low_high(a[11], a[9]));
        let w2 = self.r2 ^ low_high(a[7], a[5]);
        let b = words::shift16(a, x);
        Zuc {
            a: b,
            r1: next_r1(w1, w2),
            r2: next_r2(w1, w2),
        }
    }

    // A step in INIT mode.
    #[tactic(auto, unfolding(crate::specs::Cipher::next_init, crate::specs::Cipher::fed_init))]
    pub fn step_init(self) -> Zuc
        ensures { result ≡ next_init self }
    {
        let a = self.a;
        let w = self.word();
        let x = feedback_init(weigh(a[15], a[13], a[10], a[4], a[0]), w);
        self.clock(x)
    }

    // The next state.
    #[tactic(auto, unfolding(crate::specs::Cipher::next, crate::specs::Cipher::fed))]
    #[inline(always)]
    pub fn step(self) -> Zuc
        ensures { result ≡ next self }
    {
        let a = self.a;
        let x = feedback(weigh(a[15], a[13], a[10], a[4], a[0]));
        self.clock(x)
    }

    // The word of keystream.
    #[tactic(auto, unfolding(crate::specs::Cipher::strm))]
    pub fn output(self) -> u32
        ensures { result ≡ strm self }
    {
        let a = self.a;
        self.word() ^ low_high(a[2], a[0])
    }
}
