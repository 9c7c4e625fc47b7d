// ZUC as a generator over a text: units of four bytes.
// The caller must ensure that text and buffer have the bytes of what is written.
ghost use Rattle.std.proofs.Common.{rules, inr, refl};
ghost use Rattle.zuc.specs.Generator.{gen as zuc_gen};

use crate::Zuc;
use keystream::Generator;

impl Generator for Zuc {
    ghost generator = { zuc_gen };

    ghost UNIT = { 4 };

    ghost TURN = { 32 };

    ghost unit_is = { Prim.search rules };

    ghost unit_pos = { Prim.search rules };

    ghost turn_is = { inr refl };

    const UNIT: usize = 4;

    const TURN: usize = 32;

    #[inline(never)]
    fn step(self) -> Zuc {
        Zuc::step(self)
    }

    #[inline(always)]
    fn put_unit(self, text: &[u8], out: &mut [u8]) -> Zuc {
        writer::put_word(self.output(), text, out);
        Zuc::step(self)
    }

    fn put_part(self, from: usize, count: usize, text: &[u8], out: &mut [u8]) {
        let ks = self.output().to_be_bytes();
        writer::put_part(&ks, from, count, text, out);
    }
}
