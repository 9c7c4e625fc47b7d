// The keystreams and sample internal states of KCipher-2 (annex C.6), computed by the cipher and printed as the annex prints them:
// registers from cell 0 up. Where the scan cuts a key, an IV or a keystream short, a line in brackets says so.
#![tactic(auto)]

use kcipher2::Kcipher2;
use std::io::Stdout;
use vectors_text::{cells, end, heading, inputs, line, named, remark, time, unhex, units};

fn stream(stdout: Stdout, k: &[u8], v: &[u8], count: usize) {
    inputs(stdout, k, v);
    let mut key = [0u8; 16];
    let mut iv = [0u8; 16];
    unhex(k, &mut key);
    unhex(v, &mut iv);
    let s = Kcipher2::init(&key, &iv);
    units(stdout, s, count);
}

fn state(stdout: Stdout, s: Kcipher2) {
    let a = s.a;
    let b = s.b;
    cells(stdout, b" A", &a);
    cells(stdout, b" B", &b);
    named(stdout, b"R1", s.r1);
    named(stdout, b"L1", s.l1);
    named(stdout, b"R2", s.r2);
    named(stdout, b"L2", s.l2);
    end(stdout);
}

fn next(s: Kcipher2, i: usize) -> Kcipher2 {
    if i < 24 { s.step_init() } else { s.step() }
}

// The states from time -24 on.
fn states_from(stdout: Stdout, from: Kcipher2) {
    let mut s = from;
    for i in 0..32 {
        time(stdout, i, 24);
        state(stdout, s);
        s = next(s, i);
    }
}

fn states(stdout: Stdout) {
    let mut key = [0u8; 16];
    let mut iv = [0u8; 16];
    unhex(b"80000000000000000000000000000000", &mut key);
    unhex(b"00000004000000030000000200000001", &mut iv);
    states_from(stdout, kcipher2::start::load(&key, &iv));
}

// C.6.
pub fn print(stdout: Stdout) {
    line(stdout, b"KCipher-2");
    heading(stdout, b"C.6.1");
    stream(
        stdout,
        b"00000000000000000000000000000000",
        b"00000000000000000000000000000000",
        8,
    );
    heading(stdout, b"C.6.1");
    stream(
        stdout,
        b"0f1e2d3c4b5a69788796a5b4c3d2e1f0",
        b"f0e0d0c0b0a090807060504030201000",
        8,
    );
    heading(stdout, b"C.6.1");
    stream(
        stdout,
        b"ac2f75c043fbc36709d315f2245746d8",
        b"f6b29a5845cccd8c6229393a7a4842c1",
        8,
    );
    heading(stdout, b"C.6.2");
    remark(
        stdout,
        b"the scan has ffffa4197 for fffa4197 at times -11 to -9",
    );
    stream(
        stdout,
        b"80000000000000000000000000000000",
        b"00000004000000030000000200000001",
        4,
    );
    heading(stdout, b"C.6.2");
    remark(
        stdout,
        b"the scan has ffffa4197 for fffa4197 at times -11 to -9",
    );
    states(stdout);
}
