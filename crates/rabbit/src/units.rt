// Rabbit as a generator over a text: units of sixteen bytes.
// The caller must ensure that text and buffer have the bytes of what is written.
ghost use Rattle.std.specs.Prelude.{◌≡◌};
ghost use Rattle.std.proofs.Common.{rules, inl, refl};
ghost use Rattle.rabbit.specs.Cipher.{unit as unit_of};
ghost use Rattle.rabbit.specs.Generator.{gen as rabbit_gen};

use crate::Rabbit;
use keystream::Generator;

// The bytes of the unit of st.
fn bytes(st: Rabbit) -> [u8; 16]
    ensures { result ≡ unit_of st }
{
    let z = st.output();
    let a = z[0].to_le_bytes();
    let b = z[1].to_le_bytes();
    let c = z[2].to_le_bytes();
    let d = z[3].to_le_bytes();
    [
        a[0], a[1], a[2], a[3], b[0], b[1], b[2], b[3], c[0], c[1], c[2], c[3], d[0], d[1], d[2],
        d[3],
    ]
}

impl Generator for Rabbit {
    ghost generator = { rabbit_gen };

    ghost UNIT = { 16 };

    ghost TURN = { 32 };

    ghost unit_is = { Prim.search rules };

    ghost unit_pos = { Prim.search rules };

    ghost turn_is = { inl refl };

    const UNIT: usize = 16;

    const TURN: usize = 32;

    #[inline(never)]
    fn step(self) -> Rabbit {
        Rabbit::step(self)
    }

    #[inline(always)]
    fn put_unit(self, text: &[u8], out: &mut [u8]) -> Rabbit {
        writer::put_words_up(self.output(), text, out);
        Rabbit::step(self)
    }

    fn put_part(self, from: usize, count: usize, text: &[u8], out: &mut [u8]) {
        let ks = bytes(self);
        writer::put_part(&ks, from, count, text, out);
    }
}
