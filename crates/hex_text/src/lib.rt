// Hexadecimal text: numbers in lower-case digits.
#![tactic(auto)]

ghost use Rattle.std.specs.Prelude.{◌≡◌, ◌<◌, length};
ghost use Rattle.hex_text.specs.Hex.{digit_of, hexadecimal};

// A digit in ASCII: 0 to 9, then a to f.
#[tactic(auto, unfolding(crate::specs::Hex::digit_of))]
fn digit(d: u8) -> u8
    requires { d < 16 }
    ensures { result ≡ digit_of d }
{
    if d < 10 {
        return b'0' + d;
    }
    b'a' + (d - 10)
}

// Fills out with the last digits of n, as many as it has places for: zeros stand in front of a shorter number.
pub fn fill(n: u64, out: &mut [u8])
    ensures { out.new ≡ hexadecimal (length out.old) n }
{
    let mut rest = n;
    for i in (0..out.len()).rev() {
        out[i] = digit((rest % 16) as u8);
        rest = rest / 16;
    }
}
