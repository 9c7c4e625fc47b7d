// A park, a resume and a close of a line, on the card's borrowed words.
// The caller must ensure that the card is as a call leaves it, that the line is one of its lines, and that the command is as long as its image asks.
#![tactic(auto)]

ghost use Rattle.std.specs.Prelude.{List, ℕ, ◌<◌, ◌≤◌, length};
ghost use Rattle.card_sizes.specs.Sizes.{line_count, resume_length};
ghost use Rattle.command.specs.declared.Command.TheVariants.{Park, Resume, Close};
ghost use Rattle.machine.specs.Machine.{Call};
ghost use Rattle.card_layout.specs.Words.{Sound};
ghost use Rattle.card_outcome.specs.Outcomes.{outcome_for};
ghost use Rattle.card_outcome.specs.Leaves.{call_of, CommandLeaves};

use card_outcome::Counts;
use card_rows::park_check;
use card_sizes::{CLOSE, IMAGE, LINES, PARK, RESUME, RESUME_IMAGE};
use command::Refusal;

// A park: the image of line i, with the line's next number, goes to the start of out, the line is idle, and the card holds the number of it.
pub fn run_park(card: &mut [u32], i: u8, out: &mut [u8]) -> Result<Counts, Refusal>
    requires { Sound card.old × (i < line_count) }
    ensures { (command tray text : List ℕ) → CommandLeaves card.old (Park i)
        (call_of command tray text out.old) (outcome_for result) card.new out.new }
{
    let mode = card_layout::mode_at(card, i);
    let due = card_layout::due_at(card, i);
    park_check(mode, due)?;
    let count = card_parks::park_count(card, i);
    if count == u32::MAX {
        return Err(Refusal::NoParkLeft);
    }
    if out.len() < IMAGE {
        return Err(Refusal::OutTooShort);
    }
    let number = count + 1;
    card_image::put(card_layout::line_of(card, i), i, number, out);
    card_layout::clear_line(card, i);
    card_parks::put_parked(card, i, number);
    Ok(Counts {
        used_command: PARK,
        used_data: 0,
        written: IMAGE,
    })
}

// A resume of line i from the command's image, whose number the card holds of the line that parked it, and then holds no more.
pub fn run_resume(card: &mut [u32], i: u8, command: &[u8]) -> Result<Counts, Refusal>
    requires sound { Sound card.old × (i < line_count) }
    requires resume_length_in_bounds { resume_length ≤ length command.now }
    ensures { (tray text out : List ℕ) → CommandLeaves card.old (Resume i)
        (call_of command.now tray text out) (outcome_for result) card.new out }
{
    let mode = card_layout::mode_at(card, i);
    if mode != 0 {
        return Err(Refusal::NotIdle);
    }
    let img = &command[RESUME_IMAGE..RESUME];
    let cipher = card_fields::cipher_in(img);
    let n = card_fields::position_in(img);
    let state = card_fields::words_in(img);
    let from = card_fields::from_in(img);
    let number = card_fields::number_in(img);
    if !card_checks::open_with(cipher, n, &state) {
        return Err(Refusal::InvalidImage);
    }
    if (from as usize) >= LINES {
        return Err(Refusal::InvalidImage);
    }
    if !card_parks::is_held(card, from, number) {
        return Err(Refusal::ImageNotHeld);
    }
    card_layout::put_line(1, cipher, n, &state, card, i);
    card_parks::take_up(card, from);
    Ok(Counts {
        used_command: RESUME,
        used_data: 0,
        written: 0,
    })
}

// A close: line i is idle.
pub fn run_close(card: &mut [u32], i: u8) -> Result<Counts, Refusal>
    requires { Sound card.old × (i < line_count) }
    ensures { (a : Call) → CommandLeaves card.old (Close i) a (outcome_for result) card.new a.out }
{
    let mode = card_layout::mode_at(card, i);
    if mode == 0 {
        return Err(Refusal::NotOpen);
    }
    card_layout::clear_line(card, i);
    Ok(Counts {
        used_command: CLOSE,
        used_data: 0,
        written: 0,
    })
}
