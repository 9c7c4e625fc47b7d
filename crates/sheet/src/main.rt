// The program `sheet`: prints the month's traffic sheet of the records of use.bin, bytes for each line, for each cipher and in all, one
// figure to a line; of records that it refuses the number only. An absent file counts as empty. Where use.bin cannot be read, it says so on
// standard error and prints nothing.
#![tactic(auto)]

use report::SHEET;

// One byte more than a sheet takes, which tells a longer file.
const READ: usize = traffic::MOST + 1;

fn main(rt: HostRuntime) {
    let mut records = [0u8; READ];
    let Ok(n) = files::read(rt, b"use.bin", b"sheet: use.bin", &mut records) else {
        return;
    };
    let mut out = [0u8; SHEET];
    let reported = report::report(&records[..n], &mut out);
    let written = reported.written;
    files::print(rt, b"sheet: standard output", &out[..written]);
}
