// The keystreams and sample internal states of Decim v2 (annex C.5), computed by the cipher and printed as the annex prints them: the last byte and the last bit first. Of the
// states from time 0 on, which the annex prints for each bit, those of whole bytes are printed.
#![tactic(auto)]

use decim::Decim;
use decim::start::{init_buff, init_lfsr};
use decim_buffer::Buffer;
use std::io::Stdout;
use vectors_text::{
    cell, cells, end, heading, inputs, line, listing, put, remark, time, unhex, word,
};

// The first 24 bytes of the keystream, the first byte last.
fn bytes(st: Decim) -> [u8; 24] {
    let mut z = [0u8; 24];
    let mut s = st;
    for i in (0..24).rev() {
        z[i] = s.output();
        s = s.step();
    }
    z
}

fn show(stdout: Stdout, z: [u8; 24]) {
    for i in 0..6 {
        word(stdout, words::word_at(&z, 4 * i));
    }
    end(stdout);
}

fn stream(stdout: Stdout, k: &[u8], v: &[u8]) {
    inputs(stdout, k, v);
    let mut key = [0u8; 10];
    let mut iv = [0u8; 8];
    unhex(k, &mut key);
    unhex(v, &mut iv);
    show(stdout, bytes(Decim::init(&key, &iv)));
}

// The register, each word with its last bit first.
fn register(stdout: Stdout, a: [u32; 6]) {
    let s = [
        a[5].reverse_bits(),
        a[4].reverse_bits(),
        a[3].reverse_bits(),
        a[2].reverse_bits(),
        a[1].reverse_bits(),
        a[0].reverse_bits(),
    ];
    cells(stdout, b" a", &s);
}

fn bit(stdout: Stdout, x: u32) {
    if x % 2 == 0 {
        put(stdout, b"0");
    } else {
        put(stdout, b"1");
    }
}

// The state at time i - 256, T from T0 to T2.
fn state_at(stdout: Stdout, i: usize, s: Decim) {
    time(stdout, i, 256);
    let a = s.a;
    register(stdout, a);
    let h = s.buffer;
    put(stdout, b" T ");
    bit(stdout, h.t / 4);
    bit(stdout, h.t / 2);
    bit(stdout, h.t);
    put(stdout, b" b");
    cell(stdout, h.b.reverse_bits());
    listing(stdout, b" I ", h.fill as usize);
}

// The registers of LFSR mode from the first on, and the last of them.
fn mix(stdout: Stdout, first: [u32; 6]) -> [u32; 6] {
    let mut a = first;
    time(stdout, 0, 256);
    register(stdout, a);
    for i in 1..193 {
        let next = init_lfsr(a);
        a = next;
        time(stdout, i, 256);
        register(stdout, a);
    }
    a
}

// The states of BUFF mode after the first, and the last of them.
fn fill(stdout: Stdout, first: Decim) -> Decim {
    let mut s = first;
    for i in 193..257 {
        if 32 <= s.buffer.fill {
            return s;
        }
        s = init_buff(s);
        state_at(stdout, i, s);
    }
    s
}

// S(0) to S(24).
fn run(stdout: Stdout, first: Decim) {
    let mut s = first;
    state_at(stdout, 256, s);
    for n in 1..25 {
        s = s.step();
        state_at(stdout, 256 + 8 * n, s);
    }
}

fn states(stdout: Stdout) {
    let mut key = [0u8; 10];
    let iv = [0u8; 8];
    unhex(b"00000000000000000080", &mut key);
    let a = mix(stdout, decim::start::load(&key, &iv));
    let buffer = Buffer {
        t: 0,
        b: 0,
        fill: 0,
    };
    let s = Decim { a, buffer };
    run(stdout, fill(stdout, s));
}

fn first_streams(stdout: Stdout) {
    heading(stdout, b"C.5.2");
    stream(stdout, b"00000000000000000080", b"0000000000000000");
    heading(stdout, b"C.5.2");
    stream(stdout, b"00000000000000000000", b"0000000000000080");
    heading(stdout, b"C.5.2");
    stream(stdout, b"09090909090909090909", b"0000000000000000");
}

fn last_streams(stdout: Stdout) {
    heading(stdout, b"C.5.2");
    stream(stdout, b"09080706050403020100", b"0000000000000000");
    heading(stdout, b"C.5.2");
    stream(stdout, b"eb9845f29f4cf9a65300", b"de7710a942db740d");
    heading(stdout, b"C.5.2");
    stream(stdout, b"faa75401ae5b08b5620f", b"f9922bc45df68f28");
}

// C.5.
pub fn print(stdout: Stdout) {
    line(stdout, b"Decim v2");
    first_streams(stdout);
    last_streams(stdout);
    heading(stdout, b"C.5.3");
    remark(
        stdout,
        b"the scan prints the registers to time -235 short of a byte or two, and before time 0 T from T2 to T0",
    );
    states(stdout);
}
