// How far a crypt takes a line, by numbers alone: its position, the position of a change that waits, 0 for none, and the bytes of the crypt.
// The caller need not ensure anything.
#![tactic(auto)]

ghost use Rattle.std.specs.Prelude.{◌≡◌, ltb};
ghost use Rattle.card_sizes.specs.Sizes.{limit};
ghost use Rattle.card_moves.specs.Moves.{comes_due, position_on};

use card_sizes::LIMIT;

// Whether the change comes due within the next count bytes.
pub fn comes_due(n: u64, due: u64, count: u64) -> bool
    ensures { result ≡ comes_due n due count }
{
    n < due && due - n <= count
}

// Whether the position count bytes on is over 2^36, in the stream that the line is in then.
pub fn beyond(n: u64, due: u64, count: u64) -> bool
    ensures { result ≡ ltb limit (position_on n due count) }
{
    if comes_due(n, due, count) {
        count - (due - n) > LIMIT
    } else {
        count > LIMIT || n > LIMIT - count
    }
}
