// One call of a run of the program: on what is left of the commands, of the data and of out, its line behind those before it in the table,
// and its record behind those before it in the records.
// The caller must ensure that the buffers hold what was used and written, with room for a line and a record.
#![tactic(auto)]

ghost use Rattle.session_call.specs.Turn.{Ready, Turned};

use card::Card;
use session_records::put_record;
use session_table::put_row;
use text::Text;

// How far the run has come: the card, the bytes used of commands and data, the bytes written to out, to the table and to the records, calls
// and the last code.
#[derive(Clone, Copy)]
pub struct Progress {
    pub card: Card,
    pub command: usize,
    pub data: usize,
    pub out: usize,
    pub table: usize,
    pub records: usize,
    pub calls: usize,
    pub code: u8,
}

// One call more, on what is left of the commands, of the data and of out; its line goes to the table, and its record to the records.
pub fn turn<'a>(
    p: Progress,
    commands: &'a [u8],
    tray: &'a [u8],
    text: &[u8],
    out: &mut [u8],
    table: &mut [u8],
    records: &mut [u8],
) -> Progress
    requires { Ready p commands.now text.now out.old table.old records.old }
    ensures { Turned p commands.now tray.now text.now out.old table.old records.old
        result out.new table.new records.new }
{
    let i = p.command;
    let j = p.data;
    let k = p.out;
    let answer = card::call(p.card, &commands[i..], tray, &text[j..], &mut out[k..]);
    let outcome = answer.outcome;
    let code = outcome.code;
    let used = outcome.used_command;
    let taken = outcome.used_data;
    let written = outcome.written;
    let kept = answer.card;
    let words = kept.words;
    let calls = p.calls + 1;
    let mut rows = Text::new(table, p.table);
    put_row(calls, code, used, taken, written, &mut rows);
    let mut kept_records = Text::new(records, p.records);
    put_record(code, &commands[i..], &words, taken, &mut kept_records);
    let command = i + used;
    let data = j + taken;
    let filled = k + written;
    Progress {
        card: kept,
        command,
        data,
        out: filled,
        table: rows.len(),
        records: kept_records.len(),
        calls,
        code,
    }
}
