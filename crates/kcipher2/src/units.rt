// KCipher-2 as a generator over a text: units of eight bytes.
// The caller must ensure that text and buffer have the bytes of what is written.
ghost use Rattle.std.specs.Prelude.{◌≡◌};
ghost use Rattle.std.proofs.Common.{rules, inr, refl};
ghost use Rattle.kcipher2.specs.Cipher.{unit as unit_of};
ghost use Rattle.kcipher2.specs.Generator.{gen as kcipher2_gen};

use crate::Kcipher2;
use keystream::Generator;

// The bytes of the unit of st.
fn bytes(st: Kcipher2) -> [u8; 8]
    ensures { result ≡ unit_of st }
{
    let z = st.output();
    let h = z[0].to_be_bytes();
    let l = z[1].to_be_bytes();
    [h[0], h[1], h[2], h[3], l[0], l[1], l[2], l[3]]
}

impl Generator for Kcipher2 {
    ghost generator = { kcipher2_gen };

    ghost UNIT = { 8 };

    ghost TURN = { 64 };

    ghost unit_is = { Prim.search rules };

    ghost unit_pos = { Prim.search rules };

    ghost turn_is = { inr refl };

    const UNIT: usize = 8;

    const TURN: usize = 64;

    #[inline(never)]
    fn step(self) -> Kcipher2 {
        Kcipher2::step(self)
    }

    #[inline(always)]
    fn put_unit(self, text: &[u8], out: &mut [u8]) -> Kcipher2 {
        writer::put_words(self.output(), text, out);
        Kcipher2::step(self)
    }

    fn put_part(self, from: usize, count: usize, text: &[u8], out: &mut [u8]) {
        let ks = bytes(self);
        writer::put_part(&ks, from, count, text, out);
    }
}
