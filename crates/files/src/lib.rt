// Files by name: the start of one read into a buffer, and bytes written as the whole of one or to its end; and bytes written to standard
// output. What fails is said on standard error, behind a label.
#![tactic(auto)]

ghost use Rattle.std.specs.Prelude.{◌≤◌, length, IfOk};

use std::fs::{File, OpenOptions};
use std::io;
use std::io::{Error, ErrorKind, Read, Write};

// Something failed, and standard error says what.
#[derive(Clone, Copy, Debug, PartialEq, Eq)]
pub struct Said;

// Says on standard error what failed.
fn say(rt: HostRuntime, label: &[u8], error: Error) -> Said {
    let _ = Print::write_all(&rt.stderr(), label);
    let _ = eprintln!(rt; ": {error}");
    Said
}

// A file's name as text, which is what std opens.
fn name(path: &[u8]) -> io::Result<&str> {
    str::from_utf8(path).map_err(|_| Error::new(ErrorKind::InvalidInput, "file name is not UTF-8"))
}

fn open_read(rt: HostRuntime, path: &[u8]) -> io::Result<File> {
    File::open(&rt, name(path)?)
}

// Reads until buf is full or the file ends. Returns how many bytes.
fn fill(file: &mut File, buf: &mut [u8]) -> io::Result<usize>
    ensures { IfOk result (λ n. n ≤ length buf.new) }
{
    let mut done: usize = 0;
    while done < buf.len() {
        let n = file.read(&mut buf[done..])?;
        if n == 0 {
            return Ok(done);
        }
        done += n;
    }
    // an error behind a full buffer is one too
    let mut byte = [0u8; 1];
    file.read(&mut byte)?;
    Ok(done)
}

// Reads the start of a file into buf. Returns how many bytes, 0 where there is no such file, or the error.
fn start_of(rt: HostRuntime, path: &[u8], buf: &mut [u8]) -> io::Result<usize>
    ensures { IfOk result (λ n. n ≤ length buf.new) }
{
    match open_read(rt, path) {
        Ok(mut file) => fill(&mut file, buf),
        Err(e) if e.kind() == ErrorKind::NotFound => Ok(0),
        Err(e) => Err(e),
    }
}

// Reads the start of a file into buf. Returns how many bytes, 0 where there is no such file. What fails is said on standard error, behind the label.
pub fn read(rt: HostRuntime, path: &[u8], label: &[u8], buf: &mut [u8]) -> Result<usize, Said>
    ensures { IfOk result (λ n. n ≤ length buf.new) }
{
    start_of(rt, path, buf).map_err(|e| say(rt, label, e))
}

// Writes the bytes to a file that was opened, where it was, and closes it.
fn write(opened: io::Result<File>, bytes: &[u8]) -> io::Result<()> {
    let mut file = opened?;
    file.write_all(bytes)
}

fn open_overwrite(rt: HostRuntime, path: &[u8]) -> io::Result<File> {
    File::create(&rt, name(path)?)
}

// The bytes become the whole of a file. What fails is said on standard error, behind the label.
pub fn save(rt: HostRuntime, path: &[u8], label: &[u8], bytes: &[u8]) -> Result<(), Said> {
    write(open_overwrite(rt, path), bytes).map_err(|e| say(rt, label, e))
}

// Makes a file where there is none.
fn make(rt: HostRuntime, path: &[u8]) -> io::Result<()> {
    match File::create_new(&rt, name(path)?) {
        Ok(_) => Ok(()),
        Err(e) if e.kind() == ErrorKind::AlreadyExists => Ok(()),
        Err(e) => Err(e),
    }
}

fn open_append(rt: HostRuntime, path: &[u8]) -> io::Result<File> {
    OpenOptions::new().append(true).open(&rt, name(path)?)
}

// Opens a file to write to its end, which is made where there is none.
fn open_or_make(rt: HostRuntime, path: &[u8]) -> io::Result<File> {
    match open_append(rt, path) {
        Err(e) if e.kind() == ErrorKind::NotFound => {
            make(rt, path)?;
            open_append(rt, path)
        }
        opened => opened,
    }
}

// The bytes go to the end of a file, which is made where there is none; no bytes make no file. What fails is said on standard error, behind the label.
pub fn append(rt: HostRuntime, path: &[u8], label: &[u8], bytes: &[u8]) -> Result<(), Said> {
    if bytes.is_empty() {
        return Ok(());
    }
    write(open_or_make(rt, path), bytes).map_err(|e| say(rt, label, e))
}

// The bytes go to standard output. What fails is said on standard error, behind the label.
pub fn print(rt: HostRuntime, label: &[u8], bytes: &[u8]) {
    let _ = rt.write_all(bytes).map_err(|e| say(rt, label, e));
}
