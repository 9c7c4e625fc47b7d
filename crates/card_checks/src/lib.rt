// What numbers 8 and 255 ask: a state that is well formed, and a card whose lines and parks are as a call leaves them.
// The caller must ensure that a state, a line and a card have their words.
#![tactic(auto)]

ghost use Rattle.std.specs.Prelude.{◌≡◌, true, ◌+◌, ◌^◌, ◌<◌, leb, length, get_or};
ghost use Rattle.words.specs.Tests.{both};
ghost use Rattle.card_sizes.specs.Sizes.{state_words, due_at, line_size, card_size, limit};
ghost use Rattle.machine.specs.Machine.{state_ok, change_ok, line_ok, card_ok};
ghost use Rattle.card_line.specs.Words.{line_in, line_words};
ghost use Rattle.card_layout.specs.Words.{card_in, Sound};
ghost use Rattle.card_checks.specs.Glances.{glanced};

use card_admits::{admits, cells, is_carry, keeps, words_zero};
use card_sizes::{DUE, HEAD, LIMIT, LINE, LINES, STATE, WAITING};
use command::Cipher;

// Whether an open line or an image may have this cipher, this position and these words for its state.
pub fn open_with(c: u8, n: u64, w: &[u32]) -> bool
    requires { length w.now ≡ state_words }
    ensures { result ≡ state_ok c n w.now }
{
    if n > LIMIT {
        return false;
    }
    let Ok(cipher) = Cipher::try_from(c) else {
        return false;
    };
    admits(cipher, &w[..STATE])
}

// Whether nothing waits on an open line of this cipher at n, or a change above n whose stream begins with such a state. Where nothing
// waits, all words kept for a change are zero. That the lower half of the change's position is a word is told as well.
fn change_ok(c: u8, n: u64, line: &[u32]) -> bool
    requires { length line.now ≡ line_size }
    ensures { (result ≡ change_ok c n (line_in line.now).due (line_in line.now).waiting) ×
        (get_or line.now (due_at + 1) 0 < 2 ^ 32) }
{
    let none = words_zero(&line[DUE..LINE]);
    if none {
        return true;
    }
    let due = card_line::due_of(line);
    if due <= n {
        return false;
    }
    open_with(c, due, &line[WAITING..LINE])
}

// Whether the loaded line that stands in words is as a call leaves it; where it is, the words hold that line and nothing else.
fn loaded_ok(line: &[u32]) -> bool
    requires { (length line.now ≡ line_size) × (get_or line.now 0 0 ≡ 2) }
    ensures { (result ≡ line_ok (line_in line.now)) × (result ≡ true → line_words (line_in line.now) ≡ line.now) }
{
    let named = card_line::cipher_of(line);
    let Ok(cipher) = Cipher::try_from(named) else {
        return false;
    };
    let n = card_line::position_of(line);
    if n != 0 {
        return false;
    }
    let quiet = words_zero(&line[DUE..LINE]);
    if !quiet {
        return false;
    }
    keeps(cipher, &line[HEAD..DUE])
}

// Whether the open line that stands in words is as a call leaves it; where it is, the words hold that line and nothing else.
fn open_ok(line: &[u32]) -> bool
    requires { (length line.now ≡ line_size) × (get_or line.now 0 0 ≡ 1) }
    ensures { (result ≡ line_ok (line_in line.now)) × (result ≡ true → line_words (line_in line.now) ≡ line.now) }
{
    let cipher = card_line::cipher_of(line);
    let n = card_line::position_of(line);
    let state = open_with(cipher, n, &line[HEAD..DUE]);
    if !state {
        return false;
    }
    change_ok(cipher, n, line)
}

// Whether it is seen at a glance that an open line of the cipher of number c has a state that the cipher admits, and that nothing waits on it. All words that
// must be zero are put together, so that there is one test.
fn glance(c: u32, line: &[u32]) -> bool
    requires { length line.now ≡ line_size }
    ensures { result ≡ glanced c line.now }
{
    if c == 6 {
        return words_zero(&line[DUE..LINE]);
    }
    if c == 5 {
        return words_zero(&line[24..LINE]);
    }
    let rest = words_zero(&line[22..LINE]);
    if !rest {
        return false;
    }
    if c == 3 {
        return true;
    }
    if c == 1 {
        return cells(&line[HEAD..DUE]);
    }
    if c == 2 {
        let spare = line[21];
        if spare != 0 {
            return false;
        }
        let carry = line[20];
        return is_carry(carry);
    }
    c == 4
}

// Whether it is seen so that an open line is as a call leaves it, and that the words hold that line and nothing else.
fn seen_ok(line: &[u32]) -> bool
    requires { length line.now ≡ line_size }
    ensures { result ≡ both (leb (line_in line.now).n limit) (glanced (get_or line.now 1 0) line.now) }
{
    let n = card_line::position_of(line);
    if LIMIT < n {
        return false;
    }
    let cipher = line[1];
    glance(cipher, line)
}

// Whether the line that stands in words is as a call leaves it; where it is, the words hold that line and nothing else. An idle line's words are all zero.
fn line_ok(line: &[u32]) -> bool
    requires { length line.now ≡ line_size }
    ensures { (result ≡ line_ok (line_in line.now)) × (result ≡ true → line_words (line_in line.now) ≡ line.now) }
{
    let mode = line[0];
    if mode == 1 {
        let seen = seen_ok(line);
        if seen {
            return true;
        }
        return open_ok(line);
    }
    if mode == 0 {
        return words_zero(line);
    }
    if mode == 2 {
        return loaded_ok(line);
    }
    false
}

// Whether a card is as a call leaves it.
pub fn card_ok(card: &[u32]) -> bool
    requires { length card.now ≡ card_size }
    ensures { (result ≡ card_ok (card_in card.now)) × (result ≡ true → Sound card.now) }
{
    for i in 0..LINES as u8 {
        if !line_ok(card_layout::line_of(card, i)) {
            return false;
        }
    }
    card_parks::parks_ok(card)
}
