// The sizes of a state, a line, a card, an image, a key, an IV and the commands, and where the parts of a command and of an image
// begin; each follows from those above it.

// The words of a state.
#![tactic(auto)]

pub const STATE: usize = 38;

// The words before a line's state: its mode, its cipher and its position in two.
pub const HEAD: usize = 4;

// The words before the position of a change that waits: the head and the state.
pub const DUE: usize = HEAD + STATE;

// And before the state that the waiting stream begins with: the position in two.
pub const WAITING: usize = DUE + 2;

// The words of a line.
pub const LINE: usize = WAITING + STATE;

// The lines of a card.
pub const LINES: usize = 8;

// The words before a card's parks: its lines.
pub const PARKS_AT: usize = LINE * LINES;

// And before the numbers that it holds: for each line how many parks were made from it.
pub const HELD: usize = PARKS_AT + LINES;

// The words of a card: for each line the number last parked from it stands at the end.
pub const CARD: usize = HELD + LINES;

// The bytes before the line that parked an image: its cipher and its position in eight.
pub const IMAGE_FROM: usize = 9;

// Before the number of its park: the line in one.
pub const IMAGE_NUMBER: usize = IMAGE_FROM + 1;

// And before its state: the number in four.
pub const IMAGE_STATE: usize = IMAGE_NUMBER + 4;

// The bytes of an image.
pub const IMAGE: usize = IMAGE_STATE + 4 * STATE;

// Document 01's 2^36, which no position passes.
pub const LIMIT: u64 = 68_719_476_736;

// The bytes of a key and of an IV, in a tray and in a command.
pub const KEY: usize = 32;

pub const IV: usize = 16;

// The bytes of the longest tray: a key number is a byte.
pub const FULL_TRAY: usize = 256 * KEY;

// An open from the tray: kind, line, cipher, key number, IV.
pub const TRAY_IV: usize = 4;

pub const TRAY: usize = TRAY_IV + IV;

// An open with its own key: kind, line, cipher, key, IV.
pub const OWN_KEY: usize = 3;

pub const OWN_IV: usize = OWN_KEY + KEY;

pub const OWN: usize = OWN_IV + IV;

// A crypt: kind, line, count in two.
pub const CRYPT: usize = 4;

// A park and a close: kind, line.
pub const PARK: usize = 2;

pub const CLOSE: usize = 2;

// A change of key: kind, line, key number, IV, position in eight.
pub const CHANGE_IV: usize = 3;

pub const CHANGE_AT: usize = CHANGE_IV + IV;

pub const CHANGE: usize = CHANGE_AT + 8;

// A resume: kind, line, image.
pub const RESUME_IMAGE: usize = 2;

pub const RESUME: usize = RESUME_IMAGE + IMAGE;

// A load: kind, line, cipher, key number.
pub const LOAD: usize = 4;

// A start: kind, line, IV.
pub const START_IV: usize = 2;

pub const START: usize = START_IV + IV;
