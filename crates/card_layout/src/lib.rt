// What the words of a card are: the fields of a line read from them, and a line or a change that waits put among them.
// The caller must ensure that a card has its words, and that a line is one of its lines.
#![tactic(auto)]

ghost use Rattle.std.specs.Prelude.{◌≡◌, ◌<◌, length};
ghost use Rattle.card_sizes.specs.Sizes.{state_words, line_size, line_count, card_size};
ghost use Rattle.machine.specs.Machine.{plain_line, idle_line};
ghost use Rattle.machine.specs.Calls.{line_on};
ghost use Rattle.card_line.specs.Words.{line_in, with_change};
ghost use Rattle.card_layout.specs.Words.{words_at, card_in, put_line, Sound};

use card_sizes::LINE;

// The words of line i of a card.
pub fn line_of(card: &[u32], i: u8) -> &[u32]
    requires { (length card.now ≡ card_size) × (i < line_count) }
    ensures words { result.now ≡ words_at card.now i }
    ensures len { length result.now ≡ line_size }
    ensures line { line_in result.now ≡ line_on (card_in card.now) i }
{
    let at = LINE * (i as usize);
    &card[at..at + LINE]
}

// The mode of line i of a card.
pub fn mode_at(card: &[u32], i: u8) -> u8
    requires { (length card.now ≡ card_size) × (i < line_count) }
    ensures { result ≡ (line_on (card_in card.now) i).mode }
{
    card_line::mode_of(line_of(card, i))
}

// Its position.
pub fn position_at(card: &[u32], i: u8) -> u64
    requires { (length card.now ≡ card_size) × (i < line_count) }
    ensures { result ≡ (line_on (card_in card.now) i).n }
{
    card_line::position_of(line_of(card, i))
}

// The position of the change that waits on it, 0 for none.
pub fn due_at(card: &[u32], i: u8) -> u64
    requires { (length card.now ≡ card_size) × (i < line_count) }
    ensures { result ≡ (line_on (card_in card.now) i).due }
{
    card_line::due_of(line_of(card, i))
}

// Its cipher.
pub fn cipher_at(card: &[u32], i: u8) -> u8
    requires { (length card.now ≡ card_size) × (i < line_count) }
    ensures { result ≡ (line_on (card_in card.now) i).cipher }
{
    card_line::cipher_of(line_of(card, i))
}

// Line i of a card is in this mode, with this cipher, this position and this state, and nothing waits. Compiled into its callers, as what it calls is.
#[inline(always)]
pub fn put_line(mode: u32, cipher: u8, n: u64, state: &[u32], card: &mut [u32], i: u8)
    requires card_len { (length card.old ≡ card_size) × (i < line_count) }
    requires state_len { length state.now ≡ state_words }
    ensures { card.new ≡ put_line card.old i (plain_line mode cipher n state.now) }
{
    let at = LINE * (i as usize);
    card_line::put_words(mode, cipher, n, state, &mut card[at..at + LINE]);
}

// On line i of a card a change waits at position p, to the stream that begins with this state.
pub fn put_waiting(p: u64, state: &[u32], card: &mut [u32], i: u8)
    requires sound { Sound card.old × (i < line_count) }
    requires state_len { length state.now ≡ state_words }
    ensures { card.new ≡ put_line card.old i (with_change (line_on (card_in card.old) i) p state.now) }
{
    let at = LINE * (i as usize);
    card_line::put_change(p, state, &mut card[at..at + LINE]);
}

// Line i of a card is idle.
pub fn clear_line(card: &mut [u32], i: u8)
    requires { (length card.old ≡ card_size) × (i < line_count) }
    ensures { card.new ≡ put_line card.old i idle_line }
{
    let at = LINE * (i as usize);
    card_line::clear(&mut card[at..at + LINE]);
}
