// The state of KCipher-2 as words: A0..A4, B0..B10, R1, L1, R2 and L2.
ghost use Rattle.std.specs.Prelude.{refl};
ghost use Rattle.kcipher2.specs.Range.{InRange};
ghost use Rattle.ciphers.specs.Table.{kcipher2_face};
ghost use Rattle.ciphers.proofs.Sound.{kcipher2-laws};

use crate::Stored;
use buffer::put;
use card_sizes::STATE;
use card_state::front;
use kcipher2::Kcipher2;

impl Stored for Kcipher2 {
    ghost face = { kcipher2_face };

    ghost range = { InRange };

    ghost laws = { kcipher2-laws };

    ghost same = { refl };

    fn load(w: &[u32]) -> Kcipher2 {
        Kcipher2 {
            a: front(w),
            b: front(&w[5..]),
            r1: w[16],
            l1: w[17],
            r2: w[18],
            l2: w[19],
        }
    }

    fn words(self) -> [u32; STATE] {
        let mut w = [0u32; STATE];
        put(&self.a, &mut w);
        put(&self.b, &mut w[5..]);
        put(&[self.r1, self.l1, self.r2, self.l2], &mut w[16..]);
        w
    }
}
