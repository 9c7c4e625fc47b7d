// SNOW 2.0 (ISO/IEC 18033-4, 8.2): a state by value, its steps in both modes and its output. Its start from key and IV is in `start`.
#![tactic(auto)]

pub mod start;
mod units;

ghost use Rattle.std.specs.Prelude.{◌≡◌};
ghost use Rattle.field.specs.Gf32.{times};
ghost use Rattle.snow2_tables.specs.Tables.{field as field_of, alpha_inv};
ghost use Rattle.snow2.specs.Cipher.{f as fsm_of, fed, clocked, next, next_init, strm};

// s0..s15, R1 and R2.
#[derive(Clone, Copy)]
pub struct Snow2 {
    pub s: [u32; 16],
    pub r1: u32,
    pub r2: u32,
}

// The product of the inverse of alpha and w.
fn times_inverse(w: u32) -> u32
    ensures { result ≡ times field_of alpha_inv w }
{
    let t = snow2_tables::inverse();
    (w >> 8) ^ t[(w % 256) as usize]
}

impl Snow2 {
    // F.
    #[tactic(auto, unfolding(crate::specs::Cipher::f))]
    fn fsm(self) -> u32
        ensures { result ≡ fsm_of self }
    {
        let s = self.s;
        s[15].wrapping_add(self.r1) ^ self.r2
    }

    // The word that comes in.
    #[tactic(auto, unfolding(crate::specs::Cipher::fed))]
    fn feed(self) -> u32
        ensures { result ≡ fed self }
    {
        let s = self.s;
        field::times_alpha(snow2_tables::alpha(), s[0]) ^ s[2] ^ times_inverse(s[11])
    }

    // The next state, with the word x.
    #[tactic(auto, unfolding(crate::specs::Cipher::clocked))]
    fn clock(self, x: u32) -> Snow2
        ensures { result ≡ clocked self x }
    {
        let s = self.s;
        let moved = words::shift16(s, x);
        Snow2 {
            s: moved,
            r1: self.r2.wrapping_add(s[5]),
            r2: field::sub_word(self.r1),
        }
    }

    // A step in INIT mode.
    #[tactic(auto, unfolding(crate::specs::Cipher::next_init))]
    pub fn step_init(self) -> Snow2
        ensures { result ≡ next_init self }
    {
        let x = self.feed() ^ self.fsm();
        self.clock(x)
    }

    // The next state.
    #[tactic(auto, unfolding(crate::specs::Cipher::next))]
    #[inline(always)]
    pub fn step(self) -> Snow2
        ensures { result ≡ next self }
    {
        let x = self.feed();
        self.clock(x)
    }

    // The word of keystream.
    #[tactic(auto, unfolding(crate::specs::Cipher::strm))]
    pub fn output(self) -> u32
        ensures { result ≡ strm self }
    {
        let s = self.s;
        self.fsm() ^ s[0]
    }
}
