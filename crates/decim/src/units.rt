// Decim v2 as a generator over a text: units of one byte, of which none is ever cut.
// The caller must ensure that text and buffer have the bytes of what is written.
ghost use Rattle.std.proofs.Common.{rules, inr, refl};
ghost use Rattle.decim.specs.Generator.{gen as decim_gen};

use crate::Decim;
use keystream::Generator;

impl Generator for Decim {
    ghost generator = { decim_gen };

    ghost UNIT = { 1 };

    ghost TURN = { 8 };

    ghost unit_is = { Prim.search rules };

    ghost unit_pos = { Prim.search rules };

    ghost turn_is = { inr refl };

    const UNIT: usize = 1;

    const TURN: usize = 8;

    #[inline(never)]
    fn step(self) -> Decim {
        Decim::step(self)
    }

    #[inline(always)]
    fn put_unit(self, text: &[u8], out: &mut [u8]) -> Decim {
        self.put_part(0, 1, text, out);
        Decim::step(self)
    }

    fn put_part(self, from: usize, count: usize, text: &[u8], out: &mut [u8]) {
        let ks = [self.output()];
        writer::put_part(&ks, from, count, text, out);
    }
}
