// The keystreams and sample internal states of Rabbit (annex C.4), computed by the cipher and printed as the annex prints them:
// registers from cell 0 up. Where the scan cuts a key, an IV or a keystream short, a line in brackets says so.
#![tactic(auto)]

ghost use Rattle.std.specs.Prelude.{◌<◌};

use rabbit::Rabbit;
use std::io::Stdout;
use vectors_text::{cell, cells, end, heading, inputs, line, put, remark, time, unhex, units};

fn stream(stdout: Stdout, k: &[u8], v: &[u8], count: usize) {
    inputs(stdout, k, v);
    let mut key = [0u8; 16];
    let mut iv = [0u8; 8];
    unhex(k, &mut key);
    unhex(v, &mut iv);
    units(stdout, Rabbit::init(&key, &iv), count);
}

fn state(stdout: Stdout, s: Rabbit) {
    let x = s.x;
    let c = s.c;
    cells(stdout, b" x", &x);
    cells(stdout, b" c", &c);
    put(stdout, b" carry");
    cell(stdout, s.b);
    end(stdout);
}

// The state at the clause's time i - 9.
fn state_at(stdout: Stdout, i: usize, s: Rabbit) {
    time(stdout, i, 9);
    state(stdout, s);
    if 9 < i {
        put(stdout, b" output ");
        units(stdout, s, 1);
    }
}

// k states from time i - 9 on, and the state after them.
fn run(stdout: Stdout, from: Rabbit, i: usize, k: usize) -> Rabbit
    requires { (i < 16) × (k < 16) }
{
    let mut s = from;
    for j in i..i + k {
        state_at(stdout, j, s);
        s = s.step();
    }
    s
}

fn states(stdout: Stdout) {
    let mut key = [0u8; 16];
    let mut iv = [0u8; 8];
    unhex(b"000102030405060708090a0b0c0d0e0f", &mut key);
    unhex(b"0001020304050607", &mut iv);
    let s = run(stdout, rabbit::start::load(&key), 0, 4);
    state_at(stdout, 4, s);
    run(stdout, rabbit::start::add_iv(s, &iv), 5, 9);
}

// C.4.
pub fn print(stdout: Stdout) {
    line(stdout, b"Rabbit");
    heading(stdout, b"C.4.2");
    remark(
        stdout,
        b"the scan prints nine bytes 00 for the eight of the IV",
    );
    stream(
        stdout,
        b"00000000000000000000000000000000",
        b"0000000000000000",
        4,
    );
    heading(stdout, b"C.4.2");
    stream(
        stdout,
        b"00000000000000000000000000000000",
        b"0001020304050607",
        4,
    );
    heading(stdout, b"C.4.2");
    stream(
        stdout,
        b"000102030405060708090a0b0c0d0e0f",
        b"0000000000000000",
        4,
    );
    heading(stdout, b"C.4.2");
    stream(
        stdout,
        b"000102030405060708090a0b0c0d0e0f",
        b"0001020304050607",
        4,
    );
    heading(stdout, b"C.4.3");
    states(stdout);
}
