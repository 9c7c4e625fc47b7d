// Blocks of 64 bits: read from a string of bytes, taken apart into words and bytes, and put to a buffer.
// The caller must ensure only what a `requires` names: a block lies within the string or the buffer.
#![tactic(auto)]

ghost use Rattle.std.specs.Prelude.{◌≡◌, ◌++◌, ◌+◌, ◌≤◌, length, drop};
ghost use Rattle.blocks.specs.Blocks.{block, left as left_of, right as right_of, block_at, spell};

// The left word of a block.
pub fn left(x: u64) -> u32
    ensures { result ≡ left_of x }
{
    (x >> 32) as u32
}

// The right word of a block.
pub fn right(x: u64) -> u32
    ensures { result ≡ right_of x }
{
    (x % 4294967296) as u32
}

// The block of two words, l the left one.
pub fn join(l: u32, r: u32) -> u64
    ensures { result ≡ block l r }
{
    (u64::from(l) << 32) + u64::from(r)
}

// The block whose first byte, the most significant, is s[at].
#[tactic(auto, unfolding(crate::specs::Blocks::block_at))]
pub fn block_at(s: &[u8], at: usize) -> u64
    requires { at + 8 ≤ length s.now }
    ensures { result ≡ block_at s.now at }
{
    let l = words::word_at(s, at);
    let r = words::word_at(s, at + 4);
    join(l, r)
}

// The bytes of a block, most significant first.
pub fn bytes(x: u64) -> [u8; 8]
    ensures { result ≡ spell x }
{
    x.to_be_bytes()
}

// The bytes of a block, most significant first, go to the start of out.
pub fn put_block(x: u64, out: &mut [u8])
    requires { 8 ≤ length out.old }
    ensures { out.new ≡ spell x ++ drop 8 out.old }
{
    out[..8].copy_from_slice(&bytes(x));
}
