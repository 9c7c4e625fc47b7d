// The state of SNOW 2.0 as words: s0..s15, R1 and R2.
ghost use Rattle.std.specs.Prelude.{refl};
ghost use Rattle.snow2.specs.Range.{InRange};
ghost use Rattle.ciphers.specs.Table.{snow128_face};
ghost use Rattle.ciphers.proofs.Sound.{snow128-laws};

use crate::Stored;
use buffer::put;
use card_sizes::STATE;
use card_state::front;
use snow2::Snow2;

impl Stored for Snow2 {
    ghost face = { snow128_face };

    ghost range = { InRange };

    ghost laws = { snow128-laws };

    ghost same = { refl };

    fn load(w: &[u32]) -> Snow2 {
        Snow2 {
            s: front(w),
            r1: w[16],
            r2: w[17],
        }
    }

    fn words(self) -> [u32; STATE] {
        let mut w = [0u32; STATE];
        put(&self.s, &mut w);
        put(&[self.r1, self.r2], &mut w[16..]);
        w
    }
}
