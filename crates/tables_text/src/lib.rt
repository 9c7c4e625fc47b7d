// The constant tables of the ciphers as text, each worked out from its field's polynomials.
#![tactic(auto)]

ghost use Rattle.std.specs.Prelude.{◌≡◌, ◌+◌, ◌*◌, length};
ghost use Rattle.text.specs.Text.{Room, Written};
ghost use Rattle.tables_text.specs.Tables.{behind_entry, entry_text, table_text, tables_text};

use table_rules::{over_alpha, products, substitution};
use text::Text;

// AES's field: x^8 + x^4 + x^3 + x + 1.
const AES: u16 = 0x11b;

// The field of SNOW 2.0's α: the polynomial of its bytes, and y^4, whose bytes are the coefficients of the lower powers of y.
const SNOW2: u16 = 0x1a9;

const SNOW2_Y4: u32 = 0xe19fcf13;

// The fields of KCipher-2's α0 to α3, in the same way.
const KCIPHER2_0: u16 = 0x1c3;

const KCIPHER2_0_Y4: u32 = 0xb6086d1a;

const KCIPHER2_1: u16 = 0x12d;

const KCIPHER2_1_Y4: u32 = 0xa0f5fc2e;

const KCIPHER2_2: u16 = 0x14d;

const KCIPHER2_2_Y4: u32 = 0x5bf87f93;

const KCIPHER2_3: u16 = 0x165;

const KCIPHER2_3_Y4: u32 = 0x4559568b;

// The bytes of all tables: one with 256 entries of two digits, six with 256 of eight, and a byte behind each entry.
pub const SIZE: usize = 14592;

// The byte behind entry i.
#[tactic(auto, unfolding(crate::specs::Tables::behind_entry))]
fn behind(i: usize) -> u8
    ensures { result ≡ behind_entry i }
{
    if i % 16 == 15 {
        return b'\n';
    }
    b' '
}

// The last W digits of n and the byte end go behind the text.
fn put_entry<const W: usize>(n: u32, end: u8, text: &mut Text)
    requires { Room (W + 1) text.old }
    ensures { Written (entry_text W n end) text.old text.new }
{
    let mut digits = [0u8; W];
    hex_text::fill(n as u64, &mut digits);
    text.put(&digits);
    text.put(&[end]);
}

// The table t, in entries of W digits, goes behind the text.
fn put_table<const W: usize>(t: &[u32], text: &mut Text)
    requires { Room (length t.now * (W + 1)) text.old }
    ensures { Written (table_text W t.now) text.old text.new }
{
    for (i, entry) in t.iter().enumerate() {
        put_entry::<W>(*entry, behind(i), text);
    }
}

// All tables: the byte substitution, the two of SNOW 2.0, the four of KCipher-2. The second `ensures` gives the length, which passing the
// array as a slice needs.
pub fn tables(out: &mut [u8; SIZE])
    ensures out_after { out.new ≡ tables_text }
    ensures value { 14592 ≡ length out.new }
{
    let mut text = Text::new(out, 0);
    put_table::<2>(&substitution(AES), &mut text);
    put_table::<8>(&products(SNOW2, SNOW2_Y4), &mut text);
    put_table::<8>(&products(SNOW2, over_alpha(SNOW2, SNOW2_Y4)), &mut text);
    put_table::<8>(&products(KCIPHER2_0, KCIPHER2_0_Y4), &mut text);
    put_table::<8>(&products(KCIPHER2_1, KCIPHER2_1_Y4), &mut text);
    put_table::<8>(&products(KCIPHER2_2, KCIPHER2_2_Y4), &mut text);
    put_table::<8>(&products(KCIPHER2_3, KCIPHER2_3_Y4), &mut text);
}
