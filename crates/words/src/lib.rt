// Words of 32 bits: read from a string of bytes, taken apart into bytes, and moved through a register.
// The caller must ensure only what a `requires` names: a word that is read lies within the string.
#![tactic(auto)]

ghost use Rattle.std.specs.Prelude.{◌≡◌, ◌+◌, ◌≤◌, ◌<◌, ◌^◌, length};
ghost use Rattle.words.specs.Word.{word};
ghost use Rattle.words.specs.Strings.{word_at, four_at, bytes_of, bytes_up};
ghost use Rattle.words.specs.Lists.{shifted};

// A byte as a word.
pub fn wide(x: u8) -> u32
    ensures { (result ≡ x) × (result < 2 ^ 8) }
{
    u32::from(x)
}

// The word of four bytes, a the most significant.
pub fn join(a: u8, b: u8, c: u8, d: u8) -> u32
    ensures { result ≡ word a b c d }
{
    u32::from_be_bytes([a, b, c, d])
}

// The word whose first byte, the most significant, is s[at].
#[tactic(auto, unfolding(crate::specs::Strings::word_at))]
pub fn word_at(s: &[u8], at: usize) -> u32
    requires { at + 4 ≤ length s.now }
    ensures { result ≡ word_at s.now at }
{
    join(s[at], s[at + 1], s[at + 2], s[at + 3])
}

// The four words from s[at] on.
#[tactic(auto, unfolding(crate::specs::Strings::four_at))]
pub fn four_at(s: &[u8], at: usize) -> [u32; 4]
    requires { at + 16 ≤ length s.now }
    ensures { result ≡ four_at s.now at }
{
    let a = word_at(s, at);
    let b = word_at(s, at + 4);
    let c = word_at(s, at + 8);
    let d = word_at(s, at + 12);
    [a, b, c, d]
}

// The bytes of w, most significant first.
#[tactic(auto, unfolding(crate::specs::Strings::bytes_of))]
pub fn bytes(w: u32) -> [u8; 4]
    ensures { result ≡ bytes_of w }
{
    w.to_be_bytes()
}

// The bytes of w, least significant first.
#[tactic(auto, unfolding(crate::specs::Strings::bytes_up))]
pub fn bytes_up(w: u32) -> [u8; 4]
    ensures { result ≡ bytes_up w }
{
    w.to_le_bytes()
}

// A register of sixteen words moved by one, with x as its last.
pub fn shift16(a: [u32; 16], x: u32) -> [u32; 16]
    ensures { result ≡ shifted a x }
{
    [
        a[1], a[2], a[3], a[4], a[5], a[6], a[7], a[8], a[9], a[10], a[11], a[12], a[13], a[14],
        a[15], x,
    ]
}
