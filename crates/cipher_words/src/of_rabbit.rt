// The state of Rabbit as words: X0..X7, C0..C7 and the carry, which is the top byte of a word.
ghost use Rattle.std.specs.Prelude.{refl};
ghost use Rattle.rabbit.specs.Range.{InRange};
ghost use Rattle.ciphers.specs.Table.{rabbit_face};
ghost use Rattle.ciphers.proofs.Sound.{rabbit-laws};

use crate::Stored;
use buffer::put;
use card_sizes::STATE;
use card_state::front;
use rabbit::Rabbit;

impl Stored for Rabbit {
    ghost face = { rabbit_face };

    ghost range = { InRange };

    ghost laws = { rabbit-laws };

    ghost same = { refl };

    fn load(w: &[u32]) -> Rabbit {
        Rabbit {
            x: front(w),
            c: front(&w[8..]),
            b: w[16] / 16777216,
        }
    }

    fn words(self) -> [u32; STATE] {
        let mut w = [0u32; STATE];
        put(&self.x, &mut w);
        put(&self.c, &mut w[8..]);
        w[16] = self.b * 16777216;
        w
    }
}
