// What the records of use.bin come to, which stand in one borrowed buffer: sums over the records of a line, of a cipher and over all, and
// what a sheet of them is refused for.
// The caller must ensure only what a `requires` names: a sum of some records needs a total below 2^64.
#![tactic(auto)]

ghost use Rattle.std.specs.Prelude.{◌≡◌, ◌<◌, ◌^◌, length, IfOk};
ghost use Rattle.command.specs.Rows.{code_of};
ghost use Rattle.records.specs.Records.{said, uses};
ghost use Rattle.traffic.specs.Traffic.{sum_of, every, unknown, any_unknown, sheet_rows, in_column, column_number, column_value, total_of, sheet_number, code_given};
ghost use Rattle.words.specs.Tests.{pick};

use records::{RECORD, bytes_of};

// A sheet takes so many bytes of records.
pub const MOST: usize = 40960;

// What a record is counted by.
#[derive(Clone, Copy, Debug, PartialEq, Eq)]
pub enum Column {
    Line,
    Cipher,
}

impl Column {
    // What a record has there.
    #[tactic(auto, unfolding(records::specs::Records::use_at))]
    fn of(self, record: &[u8; RECORD]) -> u8
        ensures { result ≡ column_value self (said record.now) }
    {
        let [line, cipher, ..] = *record;
        match self {
            Column::Line => line,
            Column::Cipher => cipher,
        }
    }
}

// What no sheet is made of: no whole number of records or too many, a line or a cipher that there is not, a total of 2^64 or more.
#[derive(Clone, Copy, Debug, PartialEq, Eq)]
pub enum SheetRefusal {
    Length = 20,
    Unknown = 21,
    Total = 22,
}

impl SheetRefusal {
    // The number that is printed.
    pub fn number(self) -> u8
        ensures { result ≡ sheet_number self }
    {
        self as u8
    }
}

// Whether a record is of a line or of a cipher that there is not.
fn is_unknown(record: &[u8; RECORD]) -> bool
    ensures { result ≡ unknown (said record.now) }
{
    let [line, cipher, ..] = *record;
    line > 7 || cipher == 0 || cipher > 6
}

// Whether any record is.
fn any_unknown(s: &[u8]) -> bool
    ensures { result ≡ any_unknown (uses s.now) }
{
    records::all(s).iter().any(|record| is_unknown(record))
}

// The sum of all records, where it is below 2^64.
pub fn total(s: &[u8]) -> Option<u64>
    ensures { result ≡ total_of (sum_of every (uses s.now)) }
{
    let mut sum: u64 = 0;
    for record in records::all(s) {
        sum = sum.checked_add(bytes_of(record))?;
    }
    Some(sum)
}

// The bytes of a record that has v in a column, else 0.
fn counted(record: &[u8; RECORD], column: Column, v: u8) -> u64
    ensures { result ≡ pick (in_column (column_number column) v (said record.now)) (said record.now).bytes 0 }
{
    if column.of(record) == v {
        bytes_of(record)
    } else {
        0
    }
}

// The sum of the records that have v in a column.
pub fn sum(s: &[u8], column: Column, v: u8) -> u64
    requires { sum_of every (uses s.now) < 2 ^ 64 }
    ensures { result ≡ sum_of (in_column (column_number column) v) (uses s.now) }
{
    let mut sum: u64 = 0;
    for record in records::all(s) {
        sum += counted(record, column, v);
    }
    sum
}

// The total of a sheet of these records, or what it is refused for.
pub fn judge(s: &[u8]) -> Result<u64, SheetRefusal>
    ensures code { code_given result ≡ code_of (sheet_rows s.now) }
    ensures total { IfOk result (λ n. n ≡ sum_of every (uses s.now)) }
{
    let n = s.len();
    if n % RECORD != 0 || n > MOST {
        return Err(SheetRefusal::Length);
    }
    if any_unknown(s) {
        return Err(SheetRefusal::Unknown);
    }
    total(s).ok_or(SheetRefusal::Total)
}
