// The steps of a sealing and of an opening along the keystream: the W_i of a message, and what is recovered of a sealed one.
// The caller must ensure what a `requires` names: lengths, and buffers with room.
#![tactic(auto)]

ghost use Rattle.std.specs.Prelude.{◌≡◌, List, ℕ, ◌+◌, ◌*◌, length};
ghost use Rattle.sealing_rules.specs.Sealing.{blocks_from};
ghost use Rattle.sealing_stream.specs.Walk.{At};
ghost use Rattle.sealing_steps.specs.Steps.{Sized, Holdable, Ends, Sums, Recovers};

use blocks::{block_at, put_block};
use multi_s01::unchain;
use sealing_stream::Walk;

// The last two W_i of a sealing: of the padding and of the redundancy.
#[derive(Clone, Copy)]
struct Tail {
    padding: u64,
    redundancy: u64,
}

// The W_i of padding and redundancy, from the block of the keystream on at which the walk stands.
fn ends(walk: &mut Walk, redundancy: &[u8]) -> Tail
    requires { length redundancy.now ≡ 8 }
    ensures { (c : ℕ) (s : List ℕ) (i : ℕ) → At c s (8 * i) walk.old →
        Ends (blocks_from c s) i redundancy.now result.padding result.redundancy }
{
    let z0 = walk.next_block();
    let z1 = walk.next_block();
    let z2 = walk.next_block();
    let r = block_at(redundancy, 0);
    Tail {
        padding: z2 ^ z0,
        redundancy: r ^ z1,
    }
}

// The W_i of message, padding and redundancy go to the start of out, where the walk stands behind the block t that multiplies.
pub fn sums(walk: &mut Walk, redundancy: &[u8], message: &[u8], out: &mut [u8])
    requires { Sized redundancy.now message.now (length out.old) }
    ensures { (c : ℕ) (s : List ℕ) (t : ℕ) → At c s (8 * (t + 1)) walk.old →
        Sums (blocks_from c s) t redundancy.now message.now out.old out.new }
{
    walk.crypt_on(message, out);
    let e = ends(walk, redundancy);
    let n = message.len();
    let m = n + 8;
    put_block(e.padding, &mut out[n..]);
    put_block(e.redundancy, &mut out[m..]);
}

// What 6.2.3 recovers goes to the start of held, where the walk stands behind the block t that multiplies, which is a; the block of keystream behind it
// is returned.
pub fn recover(walk: &mut Walk, a: u64, sealed: &[u8], held: &mut [u8]) -> u64
    requires { Holdable sealed.now held.old }
    ensures { (c : ℕ) (s : List ℕ) (t : ℕ) → At c s (8 * (t + 1)) walk.old →
        Recovers (blocks_from c s) t a sealed.now held.old result held.new }
{
    walk.crypt_on(sealed, held);
    let z = walk.next_block();
    let inverse = gf64::inverse(a);
    unchain(inverse, sealed.len() / 8, sealed, held);
    z
}
