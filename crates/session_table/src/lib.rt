// The table that the program prints: the column names, a call's line and the last line, each behind what stands before it in a buffer; and
// how many calls were accepted.
#![tactic(auto)]

ghost use Rattle.std.specs.Prelude.{◌≡◌};
ghost use Rattle.text.specs.Text.{Room, Written};
ghost use Rattle.session_table.specs.Table.{columns, call_row, end_of, accepted_of};

use text::Text;

// The column names go behind the text.
pub fn put_columns(table: &mut Text)
    requires { Room 23 table.old }
    ensures { Written columns table.old table.new }
{
    table.put(b"call code cmd data out\n");
}

// A line of the table goes behind the text.
pub fn put_row(call: usize, code: u8, command: usize, text: usize, written: usize, table: &mut Text)
    requires { Room 105 table.old }
    ensures { Written (call_row call code command text written) table.old table.new }
{
    table.put_figure(call as u64, b' ');
    table.put_figure(code as u64, b' ');
    table.put_figure(command as u64, b' ');
    table.put_figure(text as u64, b' ');
    table.put_figure(written as u64, b'\n');
}

// The last line of the table goes behind the text.
pub fn put_end(accepted: usize, code: u8, table: &mut Text)
    requires { Room 46 table.old }
    ensures { Written (end_of accepted code) table.old table.new }
{
    table.put(b"end ");
    table.put_figure(accepted as u64, b' ');
    table.put_figure(code as u64, b'\n');
}

// Accepted calls: all but a last one that was refused.
#[tactic(auto, unfolding(crate::specs::Table::accepted_of))]
pub fn accepted_of(calls: usize, code: u8) -> usize
    ensures { result ≡ accepted_of calls code }
{
    if code == 0 {
        calls
    } else {
        calls.saturating_sub(1)
    }
}
