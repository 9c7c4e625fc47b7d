// A run of the program: commands are run until the end or the first refusal (document 01, `cardrun`), the written bytes joined in one
// buffer, the table of calls written to another, and the records of the crypts to a third.
#![tactic(auto)]

ghost use Rattle.std.specs.Prelude.{◌≡◌, ◌+◌, ◌≤◌, length, take};
ghost use Rattle.text.specs.Text.{Behind};
ghost use Rattle.session_table.specs.Table.{columns, end_of};
ghost use Rattle.session.specs.Session.{read_length};
ghost use Rattle.session.specs.Progress.{start_of, Sizes, Finished, RunPromise};

use session_call::{Progress, turn};
use session_table::{accepted_of, put_columns, put_end};
use text::Text;

// Only so many bytes of each file are read.
pub const READ: usize = 16384;

// The bytes of out, and those of the longest table: a line takes 32 at most, and there are at most 8,193 of them beside the first and the last.
pub const OUT: usize = 65536;

pub const TABLE: usize = 262400;

// The bytes of the most records: ten for each accepted call, of which there are at most 8,192.
pub const RECORDS: usize = 81920;

// What a run leaves: the bytes written to out, to the table and to the records.
#[derive(Clone, Copy)]
pub struct Ended {
    pub written: usize,
    pub printed: usize,
    pub recorded: usize,
}

// A run at its start: a fresh card, and a table of so many bytes.
fn start(table: usize) -> Progress
    ensures { result ≡ start_of table }
{
    let card = card::fresh();
    Progress {
        card,
        command: 0,
        data: 0,
        out: 0,
        table,
        records: 0,
        calls: 0,
        code: 0,
    }
}

// Calls until the commands are used up or one is refused, from a fresh card.
fn run_calls<'a>(
    commands: &'a [u8],
    tray: &'a [u8],
    text: &[u8],
    out: &mut [u8],
    table: &mut [u8],
    records: &mut [u8],
) -> Progress
    requires { Sizes commands.now text.now out.old table.old records.old }
    ensures { Finished commands.now tray.now text.now out.old table.old records.old
        result out.new table.new records.new }
{
    let n = commands.len();
    let mut p = start(23);
    while p.code == 0 && p.command < n {
        p = turn(p, commands, tray, text, out, table, records);
    }
    p
}

// The column names go to the start of table. Returns where they end.
fn begin(table: &mut [u8]) -> usize
    requires { 23 ≤ length table.old }
    ensures { Behind columns 0 table.old table.new result }
{
    let mut text = Text::new(table, 0);
    put_columns(&mut text);
    text.len()
}

// The last line of the table goes behind the first at bytes of table. Returns where it ends.
fn finish(accepted: usize, code: u8, at: usize, table: &mut [u8]) -> usize
    requires { at + 46 ≤ length table.old }
    ensures { Behind (end_of accepted code) at table.old table.new result }
{
    let mut text = Text::new(table, at);
    put_end(accepted, code, &mut text);
    text.len()
}

// The first bytes of a file, as many as are read.
fn first(s: &[u8]) -> &[u8]
    ensures { result.now ≡ take read_length s.now }
{
    let e = s.len().min(READ);
    &s[..e]
}

// Runs the commands. The written bytes go to the start of out, the table to the start of table and the records of accepted crypts to the
// start of records; what is behind them stays.
pub fn run<'a>(
    commands: &'a [u8],
    tray: &'a [u8],
    data: &[u8],
    out: &mut [u8; OUT],
    table: &mut [u8; TABLE],
    records: &mut [u8; RECORDS],
) -> Ended
    ensures { RunPromise commands.now tray.now «data».now out.old
        table.old records.old out.new table.new records.new result }
{
    let c = first(commands);
    let t = first(tray);
    let d = first(data);
    begin(table);
    let p = run_calls(c, t, d, out, table, records);
    let calls = p.calls;
    let code = p.code;
    let at = p.table;
    let accepted = accepted_of(calls, code);
    let printed = finish(accepted, code, at, table);
    Ended {
        written: p.out,
        printed,
        recorded: p.records,
    }
}
