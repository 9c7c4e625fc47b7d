// The state of MUGI as words, two to a block.
ghost use Rattle.std.specs.Prelude.{◌≡◌, refl, length};
ghost use Rattle.words.specs.Lists.{tab};
ghost use Rattle.mugi.specs.Range.{InRange};
ghost use Rattle.ciphers.specs.States.{state_words, halves, block_in};
ghost use Rattle.ciphers.specs.Table.{mugi_face};
ghost use Rattle.ciphers.proofs.Sound.{mugi-laws};

use crate::Stored;
use blocks::{join, left, right};
use card_sizes::STATE;
use mugi::Mugi;

// The blocks that a line's words hold.
fn blocks_in(w: &[u32]) -> [u64; 19]
    requires { length w.now ≡ state_words }
    ensures { result ≡ tab 19 (block_in w.now) }
{
    let mut x = [0u64; 19];
    for i in 0..19 {
        let l = w[2 * i];
        let r = w[2 * i + 1];
        x[i] = join(l, r);
    }
    x
}

// The words of blocks.
fn words_of(x: [u64; 19]) -> [u32; STATE]
    ensures { result ≡ halves x }
{
    let mut w = [0u32; STATE];
    for i in 0..19 {
        let z = x[i];
        w[2 * i] = left(z);
        w[2 * i + 1] = right(z);
    }
    w
}

impl Stored for Mugi {
    ghost face = { mugi_face };

    ghost range = { InRange };

    ghost laws = { mugi-laws };

    ghost same = { refl };

    fn load(w: &[u32]) -> Mugi {
        let x = blocks_in(w);
        let a = [x[0], x[1], x[2]];
        let b = [
            x[3], x[4], x[5], x[6], x[7], x[8], x[9], x[10], x[11], x[12], x[13], x[14], x[15],
            x[16], x[17], x[18],
        ];
        Mugi { a, b }
    }

    fn words(self) -> [u32; STATE] {
        let a = self.a;
        let b = self.b;
        words_of([
            a[0], a[1], a[2], b[0], b[1], b[2], b[3], b[4], b[5], b[6], b[7], b[8], b[9], b[10],
            b[11], b[12], b[13], b[14], b[15],
        ])
    }
}
