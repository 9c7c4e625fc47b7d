// What the words of a line are: its fields read from them, and the words of an open or a loaded line, of a change that waits and of an idle line.
// The caller must ensure that a line has its words.
#![tactic(auto)]

ghost use Rattle.std.specs.Prelude.{◌≡◌, [], ◌∷◌, ◌++◌, ◌+◌, ◌*◌, ◌/◌, ◌%◌, ◌^◌, ◌<◌, ◌≤◌, min, length, get_or, drop};
ghost use Rattle.card_sizes.specs.Sizes.{state_words, head_words, due_at, line_size};
ghost use Rattle.machine.specs.Machine.{plain_line, idle_line};
ghost use Rattle.card_line.specs.Words.{line_in, line_words, with_change, LineHeld};

use card_sizes::{DUE, HEAD, LINE, WAITING};

// A word as a byte; one above it counts as 255, which no mode and no cipher has.
fn byte(w: u32) -> u8
    ensures { result ≡ min w 255 }
{
    u8::try_from(w).unwrap_or(255)
}

// The number of 64 bits in two words of a line, the upper half in word k; that the lower half is a word is told as well.
fn number_at(line: &[u32], k: usize) -> u64
    requires { k + 1 < length line.now }
    ensures { (result ≡ get_or line.now k 0 * 2 ^ 32 + get_or line.now (k + 1) 0) ×
        (get_or line.now (k + 1) 0 < 2 ^ 32) }
{
    u64::from(line[k]) * 4294967296 + u64::from(line[k + 1])
}

// The mode of the line that stands in words.
pub fn mode_of(line: &[u32]) -> u8
    requires { length line.now ≡ line_size }
    ensures { result ≡ (line_in line.now).mode }
{
    byte(line[0])
}

// Its cipher.
pub fn cipher_of(line: &[u32]) -> u8
    requires { length line.now ≡ line_size }
    ensures { result ≡ (line_in line.now).cipher }
{
    byte(line[1])
}

// Its position; that the lower half is a word is told as well.
pub fn position_of(line: &[u32]) -> u64
    requires { length line.now ≡ line_size }
    ensures { (result ≡ (line_in line.now).n) × (get_or line.now 3 0 < 2 ^ 32) }
{
    number_at(line, 2)
}

// The position of the change that waits on it, 0 for none; that the lower half is a word is told as well.
pub fn due_of(line: &[u32]) -> u64
    requires { length line.now ≡ line_size }
    ensures { (result ≡ (line_in line.now).due) × (get_or line.now (due_at + 1) 0 < 2 ^ 32) }
{
    number_at(line, DUE)
}

// A number's two words.
fn put_number(n: u64, w: &mut [u32])
    requires { length w.old ≡ 2 }
    ensures { w.new ≡ n / 2 ^ 32 ∷ n % 2 ^ 32 ∷ [] }
{
    w[0] = (n / 4294967296) as u32;
    w[1] = (n % 4294967296) as u32;
}

// The words before a line's state go to the start of line.
pub fn put_head(mode: u32, cipher: u8, n: u64, line: &mut [u32])
    requires { head_words ≤ length line.old }
    ensures { line.new ≡ (mode ∷ cipher ∷ n / 2 ^ 32 ∷ n % 2 ^ 32 ∷ []) ++ drop head_words line.old }
{
    line[0] = mode;
    line[1] = u32::from(cipher);
    put_number(n, &mut line[2..HEAD]);
}

// All words are zero.
pub fn clear(line: &mut [u32])
    requires { length line.old ≡ line_size }
    ensures { line.new ≡ line_words idle_line }
{
    line.fill(0);
}

// The words of a line in this mode with nothing waiting. Compiled into its callers: by itself its copy would be a call of `memmove`, since nothing tells there that state and line lie apart.
#[inline(always)]
pub fn put_words(mode: u32, cipher: u8, n: u64, state: &[u32], line: &mut [u32])
    requires line_len { length line.old ≡ line_size }
    requires state_len { length state.now ≡ state_words }
    ensures { line.new ≡ line_words (plain_line mode cipher n state.now) }
{
    clear(line);
    line[HEAD..DUE].copy_from_slice(state);
    put_head(mode, cipher, n, line);
}

// A change waits at position p, to the stream that begins with this state.
pub fn put_change(p: u64, state: &[u32], line: &mut [u32])
    requires line_held { LineHeld line.old }
    requires state_len { length state.now ≡ state_words }
    ensures { line.new ≡ line_words (with_change (line_in line.old) p state.now) }
{
    put_number(p, &mut line[DUE..WAITING]);
    line[WAITING..LINE].copy_from_slice(state);
}
