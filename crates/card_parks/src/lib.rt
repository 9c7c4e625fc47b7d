// The parks of a card, in the words behind its lines: for each line how many were made from it, and the number last parked from it.
// The caller must ensure that a card has its words, and that a line is one of its lines.
#![tactic(auto)]

ghost use Rattle.std.specs.Prelude.{◌≡◌, ◌<◌, length};
ghost use Rattle.card_sizes.specs.Sizes.{line_count, card_size};
ghost use Rattle.machine.specs.Parks.{count_for, number_now, parked, holds, taken, parks_ok};
ghost use Rattle.card_layout.specs.Words.{card_in, put_parks};

use card_admits::words_zero;
use card_sizes::{HELD, LINES, PARKS_AT};

// How many parks were made from line i.
pub fn park_count(card: &[u32], i: u8) -> u32
    requires { (length card.now ≡ card_size) × (i < line_count) }
    ensures { result ≡ count_for (card_in card.now).parks i }
{
    let at = PARKS_AT + (i as usize);
    card[at]
}

// A park from line i, with the number n.
pub fn put_parked(card: &mut [u32], i: u8, n: u32)
    requires card_len { (length card.old ≡ card_size) × (i < line_count) }
    requires n_value { n ≡ number_now (card_in card.old).parks i }
    ensures { card.new ≡ put_parks card.old (parked (card_in card.old).parks i) }
{
    card[PARKS_AT + (i as usize)] = n;
    card[HELD + (i as usize)] = n;
}

// Whether a card holds number k of line i.
pub fn is_held(card: &[u32], i: u8, k: u32) -> bool
    requires { (length card.now ≡ card_size) × (i < line_count) }
    ensures { result ≡ holds (card_in card.now).parks i k }
{
    k != 0 && card[HELD + (i as usize)] == k
}

// The number of line i is taken up.
pub fn take_up(card: &mut [u32], i: u8)
    requires { (length card.old ≡ card_size) × (i < line_count) }
    ensures { card.new ≡ put_parks card.old (taken (card_in card.old).parks i) }
{
    card[HELD + (i as usize)] = 0;
}

// Whether of no line the held number is above the line's count.
fn none_above(card: &[u32]) -> bool
    requires { length card.now ≡ card_size }
    ensures { result ≡ parks_ok (card_in card.now).parks }
{
    for i in 0..LINES {
        let held = card[HELD + i];
        let count = card[PARKS_AT + i];
        if held > count {
            return false;
        }
    }
    true
}

// Whether a card's parks are as a call leaves them. Where no number is held there is nothing to look at.
pub fn parks_ok(card: &[u32]) -> bool
    requires { length card.now ≡ card_size }
    ensures { result ≡ parks_ok (card_in card.now).parks }
{
    words_zero(&card[HELD..]) || none_above(card)
}
