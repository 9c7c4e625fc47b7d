// The card for programs in C and Rust, which crates/pipeshear_c exports: a card is an array of words that the caller keeps, all zero for a fresh card, and
// `pipeshear_call` takes a call.
// Nothing is asked of the caller: any card, buffers and counts get an answer.
#![tactic(auto)]

pub mod seals;

ghost use Rattle.std.specs.Prelude.{◌≡◌, [], ◌∷◌, length};
ghost use Rattle.card_outcome.specs.Leaves.{call_of};
ghost use Rattle.pipeshear.specs.Calls.{EntryPromise};

use card_outcome::Outcome;
use card_sizes::CARD;

// The three counts.
fn put_counts(command: usize, text: usize, written: usize, counts: &mut [usize])
    requires { length counts.old ≡ 3 }
    ensures { counts.new ≡ command ∷ text ∷ written ∷ [] }
{
    counts.copy_from_slice(&[command, text, written]);
}

// A call on a card's words. Returns the code. The three counts are the bytes used of command and of data, and the bytes written to out; they are zeros
// where the code is not 0. 255 where card has not a card's words or counts not three; then counts that are not three stay as they are.
pub fn pipeshear_call<'a>(
    card: &mut [u32],
    command: &'a [u8],
    tray: &'a [u8],
    data: &[u8],
    out: &mut [u8],
    counts: &mut [usize],
) -> u8
    ensures { EntryPromise card.old
        (call_of command.now tray.now «data».now out.old) counts.old
        result card.new out.new counts.new }
{
    if counts.len() != 3 {
        return 255;
    }
    if card.len() != CARD {
        put_counts(0, 0, 0, counts);
        return 255;
    }
    let r = Outcome::from(card_engine::run(card, command, tray, data, out));
    put_counts(r.used_command, r.used_data, r.written, counts);
    r.code
}
