// Document 01's table of ciphers, by number, with states as thirty-eight words: specs/ has the table, proofs/ what holds of each
// cipher, and the code here is the columns that the card reads.
#![tactic(auto)]

ghost use Rattle.std.specs.Prelude.{◌≡◌};
ghost use Rattle.command.specs.Decode.{number_of};
ghost use Rattle.ciphers.specs.Table.{cipher_at};
ghost use Rattle.ciphers.specs.Columns.{columns_by, columns_of};

use command::Cipher;

// What is read of a cipher's row: its number and, in bytes, its key, its IV and its unit.
#[derive(Clone, Copy)]
pub struct Columns {
    pub number: u8,
    pub key: usize,
    pub iv: usize,
    pub unit: usize,
}

fn entries(number: u8, key: usize, iv: usize, unit: usize) -> Columns
    ensures { result ≡ columns_by number key iv unit }
{
    Columns {
        number,
        key,
        iv,
        unit,
    }
}

// The columns of a cipher's row.
fn row(c: Cipher) -> Columns
    ensures { result ≡ columns_of c }
{
    match c {
        Cipher::Zuc => entries(1, 16, 16, 4),
        Cipher::Rabbit => entries(2, 16, 8, 16),
        Cipher::Snow128 => entries(3, 16, 16, 4),
        Cipher::Snow256 => entries(4, 32, 16, 4),
        Cipher::Kcipher2 => entries(5, 16, 16, 8),
        Cipher::Mugi => entries(6, 16, 16, 8),
    }
}

// The number of a cipher.
pub fn number_of(c: Cipher) -> u8
    ensures { result ≡ number_of c }
{
    let r = row(c);
    r.number
}

// The bytes of its key.
pub fn key_of(c: Cipher) -> usize
    ensures { result ≡ (cipher_at (number_of c)).key }
{
    let r = row(c);
    r.key
}

// The bytes of its IV.
pub fn iv_of(c: Cipher) -> usize
    ensures { result ≡ (cipher_at (number_of c)).iv }
{
    let r = row(c);
    r.iv
}

// Its unit.
pub fn unit_of(c: Cipher) -> usize
    ensures { result ≡ (cipher_at (number_of c)).gen.unit }
{
    let r = row(c);
    r.unit
}
