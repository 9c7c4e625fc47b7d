// The keystreams and sample internal states of SNOW 2.0 (annexes C.2 and C.3), computed by the cipher and printed as the annex prints them:
// registers from the top down. Where the scan cuts a key, an IV or a keystream short, a line in brackets says so.
#![tactic(auto)]

use snow2::Snow2;
use snow2::start::{load128, load256};
use std::io::Stdout;
use vectors_text::{end, heading, inputs, line, named, register, remark, time, unhex, units};

// The N bytes that s spells.
fn bytes<const N: usize>(s: &[u8]) -> [u8; N] {
    let mut a = [0u8; N];
    unhex(s, &mut a);
    a
}

// S(0) of a key, of 16 bytes if k has 32 digits and otherwise of 32, and of an IV.
fn init(k: &[u8], v: &[u8]) -> Snow2 {
    let iv = bytes::<16>(v);
    if k.len() == 32 {
        Snow2::init128(&bytes::<16>(k), &iv)
    } else {
        Snow2::init256(&bytes::<32>(k), &iv)
    }
}

// The state before any step of such a key and an IV.
fn load(k: &[u8], v: &[u8]) -> Snow2 {
    let iv = bytes::<16>(v);
    if k.len() == 32 {
        load128(&bytes::<16>(k), &iv)
    } else {
        load256(&bytes::<32>(k), &iv)
    }
}

fn stream(stdout: Stdout, k: &[u8], v: &[u8], count: usize) {
    inputs(stdout, k, v);
    units(stdout, init(k, v), count);
}

fn state(stdout: Stdout, s: Snow2) {
    let a = s.s;
    register(stdout, a);
    named(stdout, b"R1", s.r1);
    named(stdout, b"R2", s.r2);
    end(stdout);
}

fn next(s: Snow2, i: usize) -> Snow2 {
    if i < 32 { s.step_init() } else { s.step() }
}

// The states of a key from time -34 on. At time -34 the IV is not yet in the register, which is as a zero IV leaves it.
fn states(stdout: Stdout, k: &[u8]) {
    time(stdout, 0, 34);
    register(stdout, load(k, b"00000000000000000000000000000000").s);
    let mut s = load(k, b"00000004000000030000000200000001");
    for i in 0..42 {
        time(stdout, i, 33);
        state(stdout, s);
        s = next(s, i);
    }
}

// C.2.
pub fn print128(stdout: Stdout) {
    line(stdout, b"SNOW 2.0, 128-bit key");
    heading(stdout, b"C.2.1");
    stream(
        stdout,
        b"80000000000000000000000000000000",
        b"00000000000000000000000000000000",
        8,
    );
    heading(stdout, b"C.2.1");
    remark(stdout, b"the scan prints 30 of the 32 digits a of the key");
    stream(
        stdout,
        b"aaaaaaaaaaaaaaaaaaaaaaaaaaaaaaaa",
        b"00000000000000000000000000000000",
        8,
    );
    heading(stdout, b"C.2.1");
    stream(
        stdout,
        b"80000000000000000000000000000000",
        b"00000004000000030000000200000001",
        8,
    );
    heading(stdout, b"C.2.1");
    remark(
        stdout,
        b"the scan prints 30 of the 32 digits a of the key and 28 of the 32 bytes of z",
    );
    stream(
        stdout,
        b"aaaaaaaaaaaaaaaaaaaaaaaaaaaaaaaa",
        b"00000004000000030000000200000001",
        7,
    );
    heading(stdout, b"C.2.2");
    remark(
        stdout,
        b"the scan has 8ecacddb for 8ecaccdb from time -28 to time -13",
    );
    remark(stdout, b"6fbbfcbf for 6fbbfcfb at times -16 and -15");
    remark(
        stdout,
        b"and fffffffc for ffffffff in 01 at time -26 and 00 at time -25",
    );
    states(stdout, b"80000000000000000000000000000000");
}

// C.3.
pub fn print256(stdout: Stdout) {
    line(stdout, b"SNOW 2.0, 256-bit key");
    heading(stdout, b"C.3.1");
    remark(stdout, b"the scan prints the key as 8000");
    stream(
        stdout,
        b"8000000000000000000000000000000000000000000000000000000000000000",
        b"00000000000000000000000000000000",
        8,
    );
    heading(stdout, b"C.3.1");
    remark(stdout, b"the scan prints the key as AA");
    stream(
        stdout,
        b"aaaaaaaaaaaaaaaaaaaaaaaaaaaaaaaaaaaaaaaaaaaaaaaaaaaaaaaaaaaaaaaa",
        b"00000000000000000000000000000000",
        8,
    );
    heading(stdout, b"C.3.1");
    remark(stdout, b"the scan prints the key as 8000");
    stream(
        stdout,
        b"8000000000000000000000000000000000000000000000000000000000000000",
        b"00000004000000030000000200000001",
        8,
    );
    heading(stdout, b"C.3.1");
    remark(stdout, b"the scan prints the key as AA");
    stream(
        stdout,
        b"aaaaaaaaaaaaaaaaaaaaaaaaaaaaaaaaaaaaaaaaaaaaaaaaaaaaaaaaaaaaaaaa",
        b"00000004000000030000000200000001",
        8,
    );
    heading(stdout, b"C.3.2");
    remark(
        stdout,
        b"the scan has 4bcdadab for 4bcddadb at times -12 to -5, 65abdcf1 for 65abcdf1 at time -10 and 2c05elf2 for 2c05e1f2 at time -3",
    );
    states(
        stdout,
        b"8000000000000000000000000000000000000000000000000000000000000000",
    );
}
