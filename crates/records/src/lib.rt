// The record of an accepted crypt, ten bytes: its line, its cipher, and in eight bytes, most significant first, how many bytes it enciphered.
// The caller must ensure that the buffer has room for a record that is put.
#![tactic(auto)]

ghost use Rattle.std.specs.Prelude.{◌≡◌, map};
ghost use Rattle.text.specs.Text.{Room, Written};
ghost use Rattle.records.specs.Records.{record_of, said, uses};

use text::Text;

// The bytes of a record.
pub const RECORD: usize = 10;

// A record goes behind those before it.
pub fn put(line: u8, cipher: u8, count: u64, records: &mut Text)
    requires { Room 10 records.old }
    ensures { Written (record_of line cipher count) records.old records.new }
{
    let n = count.to_be_bytes();
    let record = [line, cipher, n[0], n[1], n[2], n[3], n[4], n[5], n[6], n[7]];
    records.put(&record);
}

// All records of s; bytes behind the last whole one are of none.
pub fn all(s: &[u8]) -> &[[u8; RECORD]]
    ensures { map said result.now ≡ uses s.now }
{
    let (records, _) = s.as_chunks::<RECORD>();
    records
}

// How many bytes a record says were enciphered.
pub fn bytes_of(record: &[u8; RECORD]) -> u64
    ensures { result ≡ (said record.now).bytes }
{
    let [_, _, a, b, c, d, e, f, g, h] = *record;
    u64::from_be_bytes([a, b, c, d, e, f, g, h])
}
