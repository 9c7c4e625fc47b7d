// The program `cardrun` (document 01): runs the commands of cmd.bin with the keys of tray.bin and the bytes of data.bin, writes all
// written bytes to out.bin, appends the records of accepted crypts to use.bin and prints the table of calls. An absent file counts as
// empty. Where a file cannot be read, or out.bin or use.bin cannot be written, it says so on standard error and prints no table.
#![tactic(auto)]

use files::Said;
use session::{OUT, READ, RECORDS, TABLE};

// Runs the commands, writes out.bin, appends to use.bin and prints the table.
fn run<'a>(rt: HostRuntime, commands: &'a [u8], tray: &'a [u8], data: &[u8]) -> Result<(), Said> {
    let mut out = [0u8; OUT];
    let mut table = [0u8; TABLE];
    let mut records = [0u8; RECORDS];
    let ended = session::run(commands, tray, data, &mut out, &mut table, &mut records);
    let written = ended.written;
    let printed = ended.printed;
    let recorded = ended.recorded;
    files::save(rt, b"out.bin", b"cardrun: out.bin", &out[..written])?;
    files::append(rt, b"use.bin", b"cardrun: use.bin", &records[..recorded])?;
    files::print(rt, b"cardrun: standard output", &table[..printed]);
    Ok(())
}

// Reads the three files and runs what they say.
fn go(rt: HostRuntime) -> Result<(), Said> {
    let mut commands = [0u8; READ];
    let mut tray = [0u8; READ];
    let mut data = [0u8; READ];
    let c = files::read(rt, b"cmd.bin", b"cardrun: cmd.bin", &mut commands)?;
    let t = files::read(rt, b"tray.bin", b"cardrun: tray.bin", &mut tray)?;
    let d = files::read(rt, b"data.bin", b"cardrun: data.bin", &mut data)?;
    run(rt, &commands[..c], &tray[..t], &data[..d])
}

fn main(rt: HostRuntime) {
    let _ = go(rt);
}
