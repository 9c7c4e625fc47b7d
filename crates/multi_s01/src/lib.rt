// MULTI-S01 (ISO/IEC 18033-4, 6.2.3) on the blocks of a buffer: the W_i chained to what is sealed, what is sealed taken apart again, and the
// test of padding and redundancy. The caller must ensure only what a `requires` names: the blocks lie within the buffers.
#![tactic(auto)]

ghost use Rattle.std.specs.Prelude.{◌≡◌, ◌++◌, ◌+◌, ◌*◌, ◌≤◌, eqb, length, drop};
ghost use Rattle.words.specs.Lists.{tab};
ghost use Rattle.words.specs.Tests.{both};
ghost use Rattle.blocks.specs.Blocks.{block_at, spelled};
ghost use Rattle.multi_s01.specs.Chains.{chained, unchained};

use blocks::{block_at, put_block};
use gf64_table::{multiples, times};

// C_i takes the place of W_i, for the first count blocks of out.
pub fn chain(a: u64, count: usize, out: &mut [u8])
    requires { 8 * count ≤ length out.old }
    ensures { out.new ≡ spelled (tab count (chained a (λ k. block_at out.old (8 * k)))) ++
        drop (8 * count) out.old }
{
    let t = multiples(a);
    let mut prev: u64 = 0;
    for i in 0..count {
        let at = 8 * i;
        let w = block_at(out, at);
        let y = times(&t, w) ^ prev;
        put_block(y, &mut out[at..]);
        prev = w;
    }
}

// P_i takes the place of C_i + Z_(t+i+1), for the first count blocks of held; the C_i are in sealed.
pub fn unchain(inverse: u64, count: usize, sealed: &[u8], held: &mut [u8])
    requires { (8 * count ≤ length sealed.now) × (8 * count ≤ length held.old) }
    ensures { held.new ≡ spelled (tab count (unchained inverse sealed.now held.old)) ++
        drop (8 * count) held.old }
{
    let t = multiples(inverse);
    let mut prev: u64 = 0;
    for i in 0..count {
        let at = 8 * i;
        let c = block_at(sealed, at);
        let w = times(&t, c ^ prev);
        let h = block_at(held, at);
        let y = h ^ (c ^ w);
        put_block(y, &mut held[at..]);
        prev = w;
    }
}

// Whether what is recovered ends with the padding and the redundancy, which stand behind n bytes of message.
pub fn is_genuine(held: &[u8], n: usize, last: u64, redundancy: &[u8]) -> bool
    requires { (n + 16 ≤ length held.now) × (length redundancy.now ≡ 8) }
    ensures { result ≡ both (eqb (block_at held.now n) last)
        (eqb (block_at held.now (n + 8)) (block_at redundancy.now 0)) }
{
    let padding = block_at(held, n);
    let given = block_at(held, n + 8);
    let r = block_at(redundancy, 0);
    padding == last && given == r
}
