// The state of ZUC as words: A0..A15, R1 and R2.
ghost use Rattle.std.specs.Prelude.{refl};
ghost use Rattle.zuc.specs.Range.{InRange};
ghost use Rattle.ciphers.specs.Table.{zuc_face};
ghost use Rattle.ciphers.proofs.Sound.{zuc-laws};

use crate::Stored;
use buffer::put;
use card_sizes::STATE;
use card_state::front;
use zuc::Zuc;

impl Stored for Zuc {
    ghost face = { zuc_face };

    ghost range = { InRange };

    ghost laws = { zuc-laws };

    ghost same = { refl };

    fn load(w: &[u32]) -> Zuc {
        Zuc {
            a: front(w),
            r1: w[16],
            r2: w[17],
        }
    }

    fn words(self) -> [u32; STATE] {
        let mut w = [0u32; STATE];
        put(&self.a, &mut w);
        put(&[self.r1, self.r2], &mut w[16..]);
        w
    }
}
