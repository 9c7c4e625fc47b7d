// The keystreams and sample internal states of MUGI (annex C.1), computed by the cipher and printed as the annex prints them:
// registers from block 0 up, the states from the key's loading on. Where the scan is damaged, a line in brackets says so.
#![tactic(auto)]

ghost use Rattle.std.specs.Prelude.{◌≡◌, length};

use mugi::Mugi;
use std::io::Stdout;
use vectors_text::{block, end, heading, inputs, line, listing, put, remark, time, unhex, units};

fn stream(stdout: Stdout, k: &[u8], v: &[u8], count: usize) {
    inputs(stdout, k, v);
    let mut key = [0u8; 16];
    let mut iv = [0u8; 16];
    unhex(k, &mut key);
    unhex(v, &mut iv);
    units(stdout, Mugi::init(&key, &iv), count);
}

// Block i of a register, at the start of a line where four stand before it.
fn nth(stdout: Stdout, i: usize, x: u64) {
    if 0 < i && i % 4 == 0 {
        put(stdout, b"\n  ");
    }
    put(stdout, b" ");
    block(stdout, x);
}

// Blocks, four to a line.
fn blocks(stdout: Stdout, name: &[u8], s: &[u64]) {
    put(stdout, name);
    for (i, x) in s.iter().enumerate() {
        nth(stdout, i, *x);
    }
    end(stdout);
}

// The register a.
fn short(stdout: Stdout, a: [u64; 3]) {
    blocks(stdout, b" a", &a);
}

fn state(stdout: Stdout, s: Mugi) {
    let a = s.a;
    let b = s.b;
    short(stdout, a);
    blocks(stdout, b" b", &b);
}

// A key's turns: the state before each, and after the last, which is returned.
fn keying(stdout: Stdout, key: &[u8]) -> Mugi
    requires { length key.now ≡ 16 }
{
    let mut a = mugi::start::spread(key);
    let mut b = [0u64; 16];
    for i in 0..16 {
        listing(stdout, b"rho function ", i);
        state(stdout, Mugi { a, b });
        a = mugi::start::turn(a);
        b[15 - i] = a[0];
    }
    line(stdout, b"buffer init");
    state(stdout, Mugi { a, b });
    Mugi { a, b }
}

// An IV's turns: a before each, since b stays, and the state after the last, which is returned.
fn mixing(stdout: Stdout, s: Mugi, iv: &[u8]) -> Mugi
    requires { length iv.now ≡ 16 }
{
    let start = s.a;
    let b = s.b;
    let v = mugi::start::spread(iv);
    let mut a = mugi::start::add(start, v);
    for i in 0..16 {
        listing(stdout, b"rho function ", i);
        short(stdout, a);
        let next = mugi::start::turn(a);
        a = next;
    }
    line(stdout, b"state init");
    state(stdout, Mugi { a, b });
    Mugi { a, b }
}

// The start's updates: the states after the first fifteen, and S(0) after the sixteenth, which is returned.
fn updates(stdout: Stdout, from: Mugi) -> Mugi {
    let mut s = from;
    for i in 1..16 {
        s = s.step();
        listing(stdout, b"update ", i);
        state(stdout, s);
    }
    s.step()
}

// The annex's 54 listings. Its last update of the start is time 0, and its updates of the stream are times 1 to 4.
fn states(stdout: Stdout) {
    let mut key = [0u8; 16];
    let mut iv = [0u8; 16];
    unhex(b"000102030405060708090a0b0c0d0e0f", &mut key);
    unhex(b"f0e0d0c0b0a090807060504030201000", &mut iv);
    let loaded = keying(stdout, &key);
    let mixed = mixing(stdout, loaded, &iv);
    let mut s = updates(stdout, mixed);
    for i in 0..5 {
        time(stdout, i, 0);
        state(stdout, s);
        s = s.step();
    }
}

// C.1.
pub fn print(stdout: Stdout) {
    line(stdout, b"MUGI");
    heading(stdout, b"C.1.1");
    stream(
        stdout,
        b"00000000000000000000000000000000",
        b"00000000000000000000000000000000",
        4,
    );
    heading(stdout, b"C.1.1");
    stream(
        stdout,
        b"00000000000000000000000000000000",
        b"3461698851812139015500a53b7e5987",
        4,
    );
    heading(stdout, b"C.1.1");
    stream(
        stdout,
        b"513400b104a0599130ad00fc48d759e0",
        b"00000000000000000000000000000000",
        4,
    );
    heading(stdout, b"C.1.1");
    stream(
        stdout,
        b"69e706ee5295372c7513014730237993",
        b"2a0045c8492749d53a9b164a25e44915",
        4,
    );
    heading(stdout, b"C.1.2");
    stream(
        stdout,
        b"000102030405060708090a0b0c0d0e0f",
        b"f0e0d0c0b0a090807060504030201000",
        4,
    );
    heading(stdout, b"C.1.2");
    remark(
        stdout,
        b"the scan has cfc255e594b38ee for cfcb255e594b38ee at rho function 13 of the key",
    );
    remark(
        stdout,
        b"4e1balaafc06cb55 for 4e1ba1aafc06cb55 at rho function 13 of the IV",
    );
    remark(
        stdout,
        b"ddb859802a3037a for ddbd859802a3037a at updates 5 and 6",
    );
    remark(
        stdout,
        b"and 3b7b6dbc17a6deal for 3b7b6dbc17a6dea1 at times 3 and 4",
    );
    remark(
        stdout,
        b"its update 16 is time 0, and its updates 1 to 4 behind that are times 1 to 4",
    );
    states(stdout);
}
