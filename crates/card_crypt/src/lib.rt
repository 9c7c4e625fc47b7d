// A crypt on a line of a card, on the card's borrowed words (document 01, "The card"), past a change that waits (document 02, (v)).
// The caller must ensure that the card is as a call leaves it, and that the line is one of its lines.
#![tactic(auto)]

ghost use Rattle.std.specs.Prelude.{◌≡◌, List, ℕ, ◌<◌, length};
ghost use Rattle.card_sizes.specs.Sizes.{line_size, line_count};
ghost use Rattle.command.specs.declared.Command.TheVariants.{Crypt};
ghost use Rattle.card_line.specs.Words.{line_in, line_words};
ghost use Rattle.card_layout.specs.Words.{Sound};
ghost use Rattle.card_outcome.specs.Outcomes.{outcome_for};
ghost use Rattle.card_outcome.specs.Leaves.{call_of, CommandLeaves};
ghost use Rattle.card_crypt.specs.Crypted.{AlongAsks, Along, renewed_line, PastAsks, CryptAsks, Crypted};

use card_moves::comes_due;
use card_outcome::Counts;
use card_rows::crypt_check;
use card_sizes::{CRYPT, DUE, HEAD, LINE, WAITING};
use ciphers::unit_of;
use command::{Cipher, Refusal};

// The open line that stands in words, as many bytes on in its stream as the text has, which goes to the start of out, XORed with the stream.
fn encipher(line: &mut [u32], text: &[u8], out: &mut [u8])
    requires { AlongAsks line.old text.now out.old }
    ensures { Along (line_in line.old) text.now out.old line.new out.new }
{
    let cipher = card_line::cipher_of(line);
    let n = card_line::position_of(line);
    let Ok(c) = Cipher::try_from(cipher) else {
        return;
    };
    let unit = unit_of(c) as u64;
    let skip = (n % unit) as usize;
    let k = text.len() as u64;
    dispatch::crypt(c, &mut line[HEAD..DUE], skip, text, out);
    let next = n + k;
    card_line::put_head(1, cipher, next, line);
}

// The line is at the start of the stream that waited, and nothing waits.
fn renew(line: &mut [u32])
    requires { length line.old ≡ line_size }
    ensures { line.new ≡ line_words (renewed_line (line_in line.old)) }
{
    let cipher = card_line::cipher_of(line);
    let state = card_state::state_of(&line[WAITING..LINE]);
    card_line::put_words(1, cipher, 0, &state, line);
}

// The open line, past a change that comes due after old bytes of the text: those in the stream that the line is in, and the rest in the one that waits.
fn encipher_past(line: &mut [u32], old: usize, text: &[u8], out: &mut [u8])
    requires { PastAsks line.old old text.now out.old }
    ensures { Crypted (line_in line.old) text.now out.old line.new out.new }
{
    encipher(line, &text[..old], out);
    renew(line);
    encipher(line, &text[old..], &mut out[old..]);
}

// The open line, as many bytes on as the text has, past a change where it comes due.
fn encipher_text(line: &mut [u32], text: &[u8], out: &mut [u8])
    requires { CryptAsks line.old text.now out.old }
    ensures { Crypted (line_in line.old) text.now out.old line.new out.new }
{
    let n = card_line::position_of(line);
    let due = card_line::due_of(line);
    let k = text.len() as u64;
    let past = comes_due(n, due, k);
    if past {
        let old = (due - n) as usize;
        encipher_past(line, old, text, out);
        return;
    }
    encipher(line, text, out);
}

// A crypt of count bytes on line i.
pub fn run_crypt(
    card: &mut [u32],
    i: u8,
    count: usize,
    data: &[u8],
    out: &mut [u8],
) -> Result<Counts, Refusal>
    requires { Sound card.old × (i < line_count) }
    ensures { (command tray : List ℕ) → CommandLeaves card.old (Crypt i count)
        (call_of command tray «data».now out.old) (outcome_for result) card.new out.new }
{
    let mode = card_layout::mode_at(card, i);
    let n = card_layout::position_at(card, i);
    let due = card_layout::due_at(card, i);
    crypt_check(mode, n, due, count, data.len(), out.len())?;
    let at = LINE * (i as usize);
    encipher_text(&mut card[at..at + LINE], &data[..count], out);
    Ok(Counts {
        used_command: CRYPT,
        used_data: count,
        written: count,
    })
}
