// A line's image, written to the start of a buffer from the line's words (document 01, "The card"): the cipher's byte, n in eight bytes,
// the line that parks in one, the park's number in four, and the words of the state with the zeros after it.
// The caller must ensure that the buffer has an image's length, that the words are a line's, and that the line is one of a card's.
#![tactic(auto)]

ghost use Rattle.std.specs.Prelude.{◌≡◌, ◌++◌, ◌<◌, ◌≤◌, length, drop};
ghost use Rattle.card_sizes.specs.Sizes.{line_count, image_length};
ghost use Rattle.machine.specs.Machine.{image_of};
ghost use Rattle.card_line.specs.Words.{line_in, LineHeld};

use card_sizes::{DUE, HEAD, IMAGE_FROM, IMAGE_NUMBER, IMAGE_STATE};
use card_spelt::{put_word, put_words};

// The image that the park of this number from this line makes of the line that stands in words, as long as every image, goes to the start of out.
pub fn put(line: &[u32], from: u8, number: u32, out: &mut [u8])
    requires line_held { LineHeld line.now × (from < line_count) }
    requires image_length_in_bounds { image_length ≤ length out.old }
    ensures { (length (image_of from number (line_in line.now)) ≡ image_length) ×
        (out.new ≡ image_of from number (line_in line.now) ++ drop image_length out.old) }
{
    let cipher = card_line::cipher_of(line);
    out[0] = cipher;
    put_words(&line[2..HEAD], &mut out[1..]);
    out[IMAGE_FROM] = from;
    put_word(number, &mut out[IMAGE_NUMBER..]);
    put_words(&line[HEAD..DUE], &mut out[IMAGE_STATE..]);
}
