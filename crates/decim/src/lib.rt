// Decim v2 (ISO/IEC 18033-4, 8.4): a state by value, its step and its output, a byte of keystream each. Its start from key and IV is in `start`.
#![tactic(auto)]

pub mod start;
mod units;

ghost use Rattle.std.specs.Prelude.{◌≡◌};
ghost use Rattle.decim_register.specs.Register.{bit_in};
ghost use Rattle.decim_buffer.specs.Buffers.{refills};
ghost use Rattle.decim.specs.Cipher.{joined_up, next, strm};

use decim_buffer::Buffer;
use decim_register::{f_word, feed_word, moved};

// The register and the buffer.
#[derive(Clone, Copy)]
pub struct Decim {
    pub a: [u32; 6],
    pub buffer: Buffer,
}

// The first eight bits of a word, the first lowest.
fn first_bits(b: u32) -> u8
    ensures { result ≡ joined_up 8 (bit_in b) }
{
    let mut z: u32 = 0;
    for j in 0..8u32 {
        let x = (b >> (31 - j)) % 2;
        z += x << j;
    }
    z as u8
}

// The buffer after eight bits, in which f is fed.
fn eight(h: Buffer, f: u32) -> Buffer
    ensures { result ≡ refills f h 8 }
{
    let mut held = h;
    for n in 0..8 {
        held = held.next(f, n);
    }
    held
}

// The bits that are taken from the buffer on the way, the first lowest.
fn taken(h: Buffer, f: u32) -> u8
    ensures { result ≡ joined_up 8 (λ k. bit_in (refills f h k).b 0) }
{
    let mut held = h;
    let mut z: u32 = 0;
    for k in 0..8 {
        let x = (held.b >> 31) % 2;
        z += x << k;
        held = held.next(f, k);
    }
    z as u8
}

impl Decim {
    // The next state: eight bits on, in which the register turns 32 times.
    pub fn step(self) -> Decim
        ensures { result ≡ next self }
    {
        let a = self.a;
        let r = feed_word(a);
        let f = f_word(a, r);
        let b = moved(a, r);
        Decim {
            a: b,
            buffer: eight(self.buffer, f),
        }
    }

    // The byte of keystream, its first bit lowest: where eight bits are ready they are those of the next eight states, and else the buffer may run empty on the way.
    pub fn output(self) -> u8
        ensures { result ≡ strm self }
    {
        let h = self.buffer;
        if h.fill < 8 {
            let a = self.a;
            return taken(h, f_word(a, feed_word(a)));
        }
        first_bits(h.b)
    }
}
