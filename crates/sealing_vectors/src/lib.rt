// Worked examples of sealed records, for the far end to compare, since annex C has none: what is sealed and with what, the place t of the multiplier
// in the keystream and the multiplier Z_t, and the sealed text.
#![tactic(auto)]

use blocks::block_at;
use command::Cipher;
use sealing_stream::Walk;
use std::io::Stdout;
use vectors_text::{block, end, heading, line, listing, put, unhex};

// A line of a name and what it stands for.
fn given(stdout: Stdout, name: &[u8], digits: &[u8]) {
    put(stdout, name);
    line(stdout, digits);
}

// The multiplier and its place.
fn multiplier(stdout: Stdout, cipher: u8, key: &[u8; 32], iv: &[u8; 16]) {
    let Ok(c) = Cipher::try_from(cipher) else {
        return;
    };
    let mut walk = Walk::start(c, key, iv);
    let Some(found) = walk.first() else {
        return;
    };
    listing(stdout, b"t          ", found.t);
    put(stdout, b"multiplier ");
    block(stdout, found.a);
    end(stdout);
}

// The sealed text of three blocks.
fn sealed(stdout: Stdout, s: &[u8; 40]) {
    put(stdout, b"sealed     ");
    block(stdout, block_at(s, 0));
    block(stdout, block_at(s, 8));
    block(stdout, block_at(s, 16));
    block(stdout, block_at(s, 24));
    block(stdout, block_at(s, 32));
    end(stdout);
}

// A message of 24 bytes sealed with a cipher, a key and an IV.
fn example(stdout: Stdout, name: &[u8], cipher: u8, k: &[u8], v: &[u8]) {
    heading(stdout, name);
    given(stdout, b"key        ", k);
    given(stdout, b"iv         ", v);
    given(stdout, b"redundancy ", b"0001020304050607");
    given(
        stdout,
        b"message    ",
        b"526f6f6d203431322c2031372063616c6c732c2039305045",
    );
    let mut key = [0u8; 32];
    let mut iv = [0u8; 16];
    let mut redundancy = [0u8; 8];
    let mut message = [0u8; 24];
    let mut out = [0u8; 40];
    unhex(k, &mut key);
    unhex(v, &mut iv);
    unhex(b"0001020304050607", &mut redundancy);
    unhex(
        b"526f6f6d203431322c2031372063616c6c732c2039305045",
        &mut message,
    );
    multiplier(stdout, cipher, &key, &iv);
    let _ = sealing::seal(cipher, &key, &iv, &redundancy, &message, &mut out);
    sealed(stdout, &out);
}

// 6.2.3.
pub fn print(stdout: Stdout) {
    line(stdout, b"MULTI-S01");
    example(
        stdout,
        b"6.2.3 over ZUC",
        1,
        b"3d4c4be96a82fdaeb58f641db17b455b",
        b"84319aa8de6915ca1f6bda6bfbd8c766",
    );
    example(
        stdout,
        b"6.2.3 over Rabbit",
        2,
        b"000102030405060708090a0b0c0d0e0f",
        b"0001020304050607",
    );
}
