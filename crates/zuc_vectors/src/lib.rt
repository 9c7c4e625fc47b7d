// The keystreams and sample internal states of ZUC (annex C.7), computed by the cipher and printed as the annex prints them:
// registers from the top down. Where the scan cuts a key, an IV or a keystream short, a line in brackets says so.
#![tactic(auto)]

use std::io::Stdout;
use vectors_text::{end, heading, inputs, line, named, register, remark, time, unhex, units};
use zuc::Zuc;

fn stream(stdout: Stdout, k: &[u8], v: &[u8], count: usize) {
    inputs(stdout, k, v);
    let mut key = [0u8; 16];
    let mut iv = [0u8; 16];
    unhex(k, &mut key);
    unhex(v, &mut iv);
    let s = Zuc::init(&key, &iv);
    units(stdout, s, count);
}

fn state(stdout: Stdout, s: Zuc) {
    let a = s.a;
    register(stdout, a);
    named(stdout, b"R1", s.r1);
    named(stdout, b"R2", s.r2);
    end(stdout);
}

// The state after the state at i steps from loading.
fn next(s: Zuc, i: usize) -> Zuc {
    if i < 32 { s.step_init() } else { s.step() }
}

fn states(stdout: Stdout) {
    let mut key = [0u8; 16];
    let mut iv = [0u8; 16];
    unhex(b"3d4c4be96a82fdaeb58f641db17b455b", &mut key);
    unhex(b"84319aa8de6915ca1f6bda6bfbd8c766", &mut iv);
    let mut s = zuc::start::load(&key, &iv);
    for i in 0..42 {
        time(stdout, i, 33);
        state(stdout, s);
        s = next(s, i);
    }
}

// C.7.
pub fn print(stdout: Stdout) {
    line(stdout, b"ZUC");
    heading(stdout, b"C.7.1");
    stream(
        stdout,
        b"00000000000000000000000000000000",
        b"00000000000000000000000000000000",
        8,
    );
    heading(stdout, b"C.7.1");
    remark(
        stdout,
        b"the scan prints 15 of the 16 bytes ff of key and IV",
    );
    stream(
        stdout,
        b"ffffffffffffffffffffffffffffffff",
        b"ffffffffffffffffffffffffffffffff",
        8,
    );
    heading(stdout, b"C.7.1");
    remark(stdout, b"the scan prints 15 of the 16 bytes ff of the IV");
    stream(
        stdout,
        b"00000000000000000000000000000000",
        b"ffffffffffffffffffffffffffffffff",
        8,
    );
    heading(stdout, b"C.7.1");
    stream(
        stdout,
        b"3d4c4be96a82fdaeb58f641db17b455b",
        b"84319aa8de6915ca1f6bda6bfbd8c766",
        8,
    );
    heading(stdout, b"C.7.2");
    remark(
        stdout,
        b"the scan has 7a9alcff for 7a9a1cff at times -1 to 2",
    );
    states(stdout);
}
