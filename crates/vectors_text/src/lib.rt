// What the program prints: lines, hexadecimal words, blocks and bytes, the units of a keystream, and the time of a state.
#![tactic(auto)]

ghost use Rattle.std.specs.Prelude.{◌<◌, ◌^◌};

use keystream::Generator;
use std::io::Stdout;

// What standard output does not take is lost.
pub fn put(stdout: Stdout, s: &[u8]) {
    let _ = stdout.write_all(s);
}

pub fn end(stdout: Stdout) {
    put(stdout, b"\n");
}

pub fn line(stdout: Stdout, s: &[u8]) {
    put(stdout, s);
    end(stdout);
}

// The clause that the next lines are from.
pub fn heading(stdout: Stdout, clause: &[u8]) {
    put(stdout, b"\n");
    line(stdout, clause);
}

// What the scan prints otherwise.
pub fn remark(stdout: Stdout, s: &[u8]) {
    put(stdout, b"[");
    put(stdout, s);
    line(stdout, b"]");
}

// The last N hexadecimal digits of n.
fn digits<const N: usize>(stdout: Stdout, n: u64)
    requires { N < 2 ^ 63 }
{
    let mut digits = [0u8; N];
    hex_text::fill(n, &mut digits);
    put(stdout, &digits);
}

pub fn word(stdout: Stdout, w: u32) {
    digits::<8>(stdout, w as u64);
}

// A space and a word.
pub fn cell(stdout: Stdout, w: u32) {
    put(stdout, b" ");
    word(stdout, w);
}

pub fn block(stdout: Stdout, x: u64) {
    digits::<16>(stdout, x);
}

// The bytes of the unit of s, from its first on.
fn unit<G: Generator>(stdout: Stdout, s: G) {
    for i in 0..G::UNIT {
        let mut z = [0u8; 1];
        s.put_part(i, 1, &[0u8], &mut z);
        digits::<2>(stdout, z[0] as u64);
    }
}

// A line of as many units of a keystream, the first that of the state from; of none, the end of the line only.
pub fn units<G: Generator>(stdout: Stdout, from: G, count: usize) {
    let mut s = from;
    for _ in 0..count {
        unit(stdout, s);
        s = s.step();
    }
    end(stdout);
}

// A space and a word with its name.
pub fn named(stdout: Stdout, name: &[u8], w: u32) {
    put(stdout, b" ");
    put(stdout, name);
    put(stdout, b":");
    word(stdout, w);
}

// The time i - before.
pub fn time(stdout: Stdout, i: usize, before: usize) {
    put(stdout, b"time ");
    if i < before {
        put(stdout, b"-");
        let _ = stdout.print(before - i);
    } else {
        let _ = stdout.print(i - before);
    }
    end(stdout);
}

// A line of a name and a number.
pub fn listing(stdout: Stdout, name: &[u8], i: usize) {
    put(stdout, name);
    let _ = stdout.print(i);
    end(stdout);
}

// The value of a hexadecimal digit, and 0 of any other byte.
fn digit(c: u8) -> u8
    ensures { result < 16 }
{
    match c {
        b'0'..=b'9' => c - b'0',
        b'a'..=b'f' => c - b'a' + 10,
        _ => 0,
    }
}

// The byte of two hexadecimal digits.
fn byte(a: u8, b: u8) -> u8 {
    digit(a) * 16 + digit(b)
}

// Byte i of those that s spells, and 0 past the last.
fn spelt(s: &[u8], i: usize) -> u8 {
    if i < s.len() / 2 {
        return byte(s[2 * i], s[2 * i + 1]);
    }
    0
}

// Fills out with the bytes that s spells.
pub fn unhex(s: &[u8], out: &mut [u8]) {
    for (i, byte) in out.iter_mut().enumerate() {
        *byte = spelt(s, i);
    }
}

pub fn inputs(stdout: Stdout, key: &[u8], iv: &[u8]) {
    put(stdout, b"key ");
    line(stdout, key);
    put(stdout, b"iv  ");
    line(stdout, iv);
    put(stdout, b"z   ");
}

// Cell i of a register with its number, and the end of a line of eight.
fn numbered(stdout: Stdout, i: usize, w: u32) {
    put(stdout, b" ");
    if i < 10 {
        put(stdout, b"0");
    }
    let _ = stdout.print(i);
    put(stdout, b":");
    word(stdout, w);
    if i % 8 == 0 {
        end(stdout);
    }
}

// Sixteen cells, from the top down.
pub fn register(stdout: Stdout, a: [u32; 16]) {
    for (i, w) in a.iter().enumerate().rev() {
        numbered(stdout, i, *w);
    }
}

// A line of cells.
pub fn cells(stdout: Stdout, name: &[u8], s: &[u32]) {
    put(stdout, name);
    for w in s {
        cell(stdout, *w);
    }
    end(stdout);
}
