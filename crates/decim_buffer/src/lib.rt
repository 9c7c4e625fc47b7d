// The compression block and the buffer of Decim v2 (ISO/IEC 18033-4, 8.4.10 and 8.4.11, and what 8.4.4 and 8.4.5 do with them).
#![tactic(auto)]

ghost use Rattle.std.specs.Prelude.{◌≡◌, true, false, ◌+◌, ◌*◌, ◌/◌, ◌%◌, ◌^◌, ◌<◌};
ghost use Rattle.decim_register.specs.Register.{bit_in};
ghost use Rattle.decim_buffer.specs.Entries.{unpacked};
ghost use Rattle.decim_buffer.specs.Buffers.{set_bit, buffered, fed_by, drawn, drawn_bits, refilled};

// T, the buffer's bits, and how many of them are ready.
#[derive(Clone, Copy)]
pub struct Buffer {
    pub t: u32,
    pub b: u32,
    pub fill: u32,
}

// Bit i of b set to c, counted from the top.
fn set_bit(b: u32, i: u32, c: u32) -> u32
    requires { (i < 32) × (c < 2) }
    ensures { result ≡ set_bit b i c }
{
    let p = 31 - i;
    let old = (b >> p) % 2;
    b - (old << p) + (c << p)
}

// b moved up by one bit, but for its lowest p bits.
fn up_above(b: u32, p: u32) -> u32
    requires { p < 32 }
    ensures { result ≡ b * 2 % 2 ^ 32 / 2 ^ p * 2 ^ p + b % 2 ^ p }
{
    let x = b << 1;
    (x >> p << p) + (b - (b >> p << p))
}

// The first i bits of b moved up by one, where it has so many.
fn draw_bits(b: u32, i: u32) -> u32
    ensures { result ≡ drawn_bits b i }
{
    if i == 0 {
        return b;
    }
    if i < 31 {
        return up_above(b, 32 - i);
    }
    up_above(b, 1)
}

impl Buffer {
    // B of 8.4.11, with T.
    fn put(self, output: bool, c: u32) -> Buffer
        requires { c < 2 }
        ensures { result ≡ buffered self.t self.b self.fill output c }
    {
        if output && self.fill < 32 {
            return Buffer {
                b: set_bit(self.b, self.fill, c),
                fill: self.fill + 1,
                ..self
            };
        }
        self
    }

    // The buffer after a bit is taken from it; where it has none it stays as it is.
    fn draw(self) -> Buffer
        ensures { result ≡ drawn self }
    {
        let fill = self.fill.saturating_sub(1);
        Buffer {
            b: draw_bits(self.b, fill),
            fill,
            ..self
        }
    }

    // The buffer after an entry of the table, which has T and at most two bits for it.
    fn put_entry(self, e: u8) -> Buffer
        ensures { result ≡ unpacked self e }
    {
        let x = words::wide(e);
        let n = x / 8 % 4;
        let held = Buffer { t: x % 8, ..self };
        held.put(0 < n, x / 32 % 2).put(1 < n, x / 64 % 2)
    }

    // The buffer after f4k to f4k+3, of a word f with f0 on top, by the table.
    pub fn feed(self, f: u32, k: u32) -> Buffer
        requires { k < 8 }
        ensures { result ≡ fed_by false (λ m. bit_in f (4 * k + m)) self 4 }
    {
        let g = (f >> (28 - 4 * k)) % 16;
        let i = ((self.t % 8) * 16 + g) as usize;
        self.put_entry(decim_tables::absg()[i])
    }

    // The same for a buffer that has run empty: the bits go into it as they are.
    fn refill(self, f: u32, k: u32) -> Buffer
        requires { k < 8 }
        ensures { result ≡ fed_by true (λ m. bit_in f (4 * k + m)) self 4 }
    {
        let mut held = self;
        for m in 0..4 {
            let x = (f >> (31 - (4 * k + m))) % 2;
            held = held.put(true, x);
        }
        held
    }

    // Next's part in the buffer: a bit is taken from it, and f4k to f4k+3 are fed.
    pub fn next(self, f: u32, k: u32) -> Buffer
        requires { k < 8 }
        ensures { result ≡ refilled (λ m. bit_in f (4 * k + m)) self }
    {
        let d = self.draw();
        if d.fill == 0 {
            return d.refill(f, k);
        }
        d.feed(f, k)
    }
}
