// The month's traffic sheet of the records of use.bin, which stand in one borrowed buffer, as text: bytes for each line, for each cipher
// and in all, or the number of a refusal.
// Nothing is asked of the caller of `report`: any bytes get a sheet or a number.
#![tactic(auto)]

ghost use Rattle.std.specs.Prelude.{◌+◌, ◌*◌, ◌≤◌, ◌<◌, ◌^◌};
ghost use Rattle.text.specs.Text.{Room, Written};
ghost use Rattle.records.specs.Records.{uses};
ghost use Rattle.traffic.specs.Traffic.{sum_of, every, in_column, column_number};
ghost use Rattle.report.specs.Report.{figures, ReportLeaves};

use card_sizes::LINES;
use text::Text;
use traffic::{Column, SheetRefusal, judge, sum};

// The ciphers in force, from 1 on.
pub const CIPHERS: usize = 6;

// The bytes of the longest sheet: figures of twenty digits, each with its newline.
pub const SHEET: usize = 21 * (LINES + CIPHERS + 1);

// What the text says, a sheet or why there is none, and its bytes.
#[derive(Clone, Copy)]
pub struct Reported {
    pub judged: Result<(), SheetRefusal>,
    pub written: usize,
}

// The sums over the records that have a value in a column, for count values from first on, go behind the text, one to a line.
fn put_figures(s: &[u8], column: Column, first: u8, count: u8, text: &mut Text)
    requires values { first + count < 256 }
    requires s_bound { sum_of every (uses s.now) < 2 ^ 64 }
    requires room { Room (21 * count) text.old }
    ensures written { Written (figures (in_column (column_number column)) first count (uses s.now)) text.old text.new }
    ensures upper_bound { text.new.len ≤ text.old.len + 21 * count }
{
    for v in first..first + count {
        text.put_figure(sum(s, column, v), b'\n');
    }
}

// The sheet of the records s, or the number that it is refused with, goes to the start of out; what is behind it stays.
pub fn report(s: &[u8], out: &mut [u8; SHEET]) -> Reported
    ensures { ReportLeaves s.now out.old out.new result }
{
    let mut text = Text::new(out, 0);
    match judge(s) {
        Ok(total) => {
            put_figures(s, Column::Line, 0, LINES as u8, &mut text);
            put_figures(s, Column::Cipher, 1, CIPHERS as u8, &mut text);
            text.put_figure(total, b'\n');
            Reported {
                judged: Ok(()),
                written: text.len(),
            }
        }
        Err(refusal) => {
            text.put_figure(refusal.number() as u64, b'\n');
            Reported {
                judged: Err(refusal),
                written: text.len(),
            }
        }
    }
}
