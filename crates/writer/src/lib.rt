// The unit writer: text XORed with keystream goes to the start of a buffer, a unit at a time or a part of one.
// The caller must ensure that text and buffer are as long as what is written.
#![tactic(auto)]

ghost use Rattle.std.specs.Prelude.{◌++◌, ◌+◌, ◌≤◌, length, get_or};
ghost use Rattle.words.specs.Strings.{bytes_of, bytes_up};
ghost use Rattle.blocks.specs.Blocks.{spell};
ghost use Rattle.keystream.specs.Stream.{BytesPut};

// The first four bytes of text, with the bytes of w, most significant first, go to the start of out.
pub fn put_word(w: u32, text: &[u8], out: &mut [u8])
    requires { (4 ≤ length text.now) × (4 ≤ length out.old) }
    ensures { BytesPut (bytes_of w) 0 4 text.now out.old out.new }
{
    let y = u32::from_be_bytes([text[0], text[1], text[2], text[3]]) ^ w;
    out[..4].copy_from_slice(&y.to_be_bytes());
}

// The first four bytes of text, with the bytes of w, least significant first, go to the start of out.
fn put_word_up(w: u32, text: &[u8], out: &mut [u8])
    requires { (4 ≤ length text.now) × (4 ≤ length out.old) }
    ensures { BytesPut (bytes_up w) 0 4 text.now out.old out.new }
{
    let y = u32::from_le_bytes([text[0], text[1], text[2], text[3]]) ^ w;
    out[..4].copy_from_slice(&y.to_le_bytes());
}

// The first eight bytes of text, with the bytes of two words, most significant first, go to the start of out.
pub fn put_words(z: [u32; 2], text: &[u8], out: &mut [u8])
    requires { (8 ≤ length text.now) × (8 ≤ length out.old) }
    ensures { BytesPut (bytes_of (get_or z 0 0) ++ bytes_of (get_or z 1 0)) 0 8 text.now out.old out.new }
{
    put_word(z[0], text, out);
    put_word(z[1], &text[4..], &mut out[4..]);
}

// The first eight bytes of text, with the bytes of two words, least significant first, go to the start of out.
fn put_two_up(v: u32, w: u32, text: &[u8], out: &mut [u8])
    requires { (8 ≤ length text.now) × (8 ≤ length out.old) }
    ensures { BytesPut (bytes_up v ++ bytes_up w) 0 8 text.now out.old out.new }
{
    put_word_up(v, text, out);
    put_word_up(w, &text[4..], &mut out[4..]);
}

// The first sixteen bytes of text, with the bytes of four words, least significant first, go to the start of out.
pub fn put_words_up(z: [u32; 4], text: &[u8], out: &mut [u8])
    requires { (16 ≤ length text.now) × (16 ≤ length out.old) }
    ensures { BytesPut (bytes_up (get_or z 0 0) ++ bytes_up (get_or z 1 0) ++ bytes_up (get_or z 2 0) ++ bytes_up (get_or z 3 0)) 0 16 text.now out.old
        out.new }
{
    put_two_up(z[0], z[1], text, out);
    put_two_up(z[2], z[3], &text[8..], &mut out[8..]);
}

// The first eight bytes of text, with those of the block z, most significant first, go to the start of out.
pub fn put_block(z: u64, text: &[u8], out: &mut [u8])
    requires { (8 ≤ length text.now) × (8 ≤ length out.old) }
    ensures { BytesPut (spell z) 0 8 text.now out.old out.new }
{
    blocks::put_block(blocks::block_at(text, 0) ^ z, out);
}

// The first count bytes of text, with the bytes of ks from byte from on, go to the start of out.
pub fn put_part(ks: &[u8], from: usize, count: usize, text: &[u8], out: &mut [u8])
    requires { (from + count ≤ length ks.now) × ((count ≤ length text.now) × (count ≤ length out.old)) }
    ensures { BytesPut ks.now from count text.now out.old out.new }
{
    for i in 0..count {
        out[i] = text[i] ^ ks[from + i];
    }
}
