// MUGI as a generator over a text: units of eight bytes.
// The caller must ensure that text and buffer have the bytes of what is written.
ghost use Rattle.std.proofs.Common.{rules, inr, refl};
ghost use Rattle.mugi.specs.Generator.{gen as mugi_gen};

use crate::Mugi;
use keystream::Generator;

impl Generator for Mugi {
    ghost generator = { mugi_gen };

    ghost UNIT = { 8 };

    ghost TURN = { 64 };

    ghost unit_is = { Prim.search rules };

    ghost unit_pos = { Prim.search rules };

    ghost turn_is = { inr refl };

    const UNIT: usize = 8;

    const TURN: usize = 64;

    #[inline(never)]
    fn step(self) -> Mugi {
        Mugi::step(self)
    }

    #[inline(always)]
    fn put_unit(self, text: &[u8], out: &mut [u8]) -> Mugi {
        writer::put_block(self.output(), text, out);
        Mugi::step(self)
    }

    fn put_part(self, from: usize, count: usize, text: &[u8], out: &mut [u8]) {
        let ks = blocks::bytes(self.output());
        writer::put_part(&ks, from, count, text, out);
    }
}
