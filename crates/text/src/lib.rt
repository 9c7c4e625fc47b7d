// Text in a borrowed buffer, put there piece behind piece: bytes, and figures in decimal.
// The caller must ensure that the buffer has room for the piece.
#![tactic(auto)]

ghost use Rattle.std.specs.Prelude.{◌≡◌, length};
ghost use Rattle.text.specs.Text.{figure, Room, Written};

// A text: the first len bytes of out. What is behind them stays.
#[derive(Drop)]
pub struct Text<'a> {
    out: &'a mut [u8],
    len: usize,
}

impl<'a> Text<'a> {
    // The text that ends at byte len of out.
    pub fn new(out: &'a mut [u8], len: usize) -> Text<'a>
        ensures same { result.out.ghost_name ≡ out.entry.ghost_name }
        ensures out_is { result.out.now ≡ out.old }
        ensures len_is { result.len ≡ len }
    {
        Text { out, len }
    }

    // Where it ends.
    pub fn len(&self) -> usize
        ensures { result ≡ self.now.len }
    {
        self.len
    }

    // The bytes of s go behind it.
    pub fn put(&mut self, s: &[u8])
        requires { Room (length s.now) self.old }
        ensures { Written s.now self.old self.new }
    {
        let out = &mut *self.out;
        buffer::put(s, &mut out[self.len..]);
        self.len += s.len();
    }

    // The digits of n and the byte end go behind it.
    pub fn put_figure(&mut self, n: u64, end: u8)
        requires { Room 21 self.old }
        ensures { Written (figure n end) self.old self.new }
    {
        let mut digits = [0u8; 20];
        let k = io::decimal(n, &mut digits);
        self.put(&digits[..k]);
        self.put(&[end]);
    }
}
