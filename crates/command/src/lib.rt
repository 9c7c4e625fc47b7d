// Ciphers, the kinds of commands, commands with their operands, and what refuses a call, as enums; the lengths of the commands and the numbers of the refusals.
// The caller need not ensure anything: any byte is read.
#![tactic(auto)]

ghost use Rattle.std.specs.Prelude.{◌≡◌};
ghost use Rattle.command.specs.Decode.{refusal_number, read_of, length_of};
ghost use Rattle.command.specs.Kinds.{kind_number, ReadsKind};

use card_sizes::{CHANGE, CLOSE, CRYPT, LOAD, OWN, PARK, RESUME, START, TRAY};

#[derive(Clone, Copy, Debug, PartialEq, Eq)]
pub enum Cipher {
    Zuc,
    Rabbit,
    Snow128,
    Snow256,
    Kcipher2,
    Mugi,
}

// The kind of a command, which its first byte says.
#[derive(Clone, Copy, Debug, PartialEq, Eq)]
pub enum Kind {
    Tray,
    Own,
    Crypt,
    Park,
    Resume,
    Close,
    Change,
    Load,
    Start,
}

// A command with its operands. Key and IV of an open, the IV of a change or a start, and the image of a resume stay in the command's bytes.
#[derive(Clone, Copy, Debug, PartialEq, Eq)]
pub enum Command {
    Tray { line: u8, cipher: Cipher, key: u8 },
    Own { line: u8, cipher: Cipher },
    Crypt { line: u8, count: usize },
    Park { line: u8 },
    Resume { line: u8 },
    Close { line: u8 },
    Change { line: u8, key: u8, position: u64 },
    Load { line: u8, cipher: Cipher, key: u8 },
    Start { line: u8 },
}

// What refuses a call of the card, or a message that is sealed or opened.
#[derive(Clone, Copy, Debug, PartialEq, Eq)]
pub enum Refusal {
    CutShort = 1,
    UnknownCommand = 2,
    NoSuchLine = 3,
    UnknownCipher = 4,
    NotIdle = 5,
    NotOpen = 6,
    BeyondLength = 7,
    InvalidImage = 8,
    TrayLength = 9,
    NoSuchKey = 10,
    DataTooShort = 11,
    OutTooShort = 12,
    PastTheEnd = 13,
    ImageNotHeld = 14,
    NoParkLeft = 15,
    BlankKey = 16,
    ChangeWaits = 17,
    ChangePosition = 18,
    NotLoaded = 19,
    MessageLength = 23,
    NotGenuine = 24,
    Damaged = 255,
}

// The cipher of a number, which is 1 to 6.
impl TryFrom<u8> for Cipher {
    type Error = Refusal;

    ghost try_from_gives = { λ b r. r ≡ read_of b };

    fn try_from(b: u8) -> Result<Self, Refusal> {
        match b {
            1 => Ok(Cipher::Zuc),
            2 => Ok(Cipher::Rabbit),
            3 => Ok(Cipher::Snow128),
            4 => Ok(Cipher::Snow256),
            5 => Ok(Cipher::Kcipher2),
            6 => Ok(Cipher::Mugi),
            _ => Err(Refusal::UnknownCipher),
        }
    }
}

// The kind of a first byte, which is 01 to 09.
impl TryFrom<u8> for Kind {
    type Error = Refusal;

    ghost try_from_gives = { ReadsKind };

    fn try_from(b: u8) -> Result<Self, Refusal> {
        match b {
            1 => Ok(Kind::Tray),
            2 => Ok(Kind::Own),
            3 => Ok(Kind::Crypt),
            4 => Ok(Kind::Park),
            5 => Ok(Kind::Resume),
            6 => Ok(Kind::Close),
            7 => Ok(Kind::Change),
            8 => Ok(Kind::Load),
            9 => Ok(Kind::Start),
            _ => Err(Refusal::UnknownCommand),
        }
    }
}

impl Kind {
    // The length of a command of this kind.
    pub fn length(self) -> usize
        ensures { result ≡ length_of (kind_number self) }
    {
        match self {
            Kind::Tray => TRAY,
            Kind::Own => OWN,
            Kind::Crypt => CRYPT,
            Kind::Park => PARK,
            Kind::Resume => RESUME,
            Kind::Close => CLOSE,
            Kind::Change => CHANGE,
            Kind::Load => LOAD,
            Kind::Start => START,
        }
    }
}

impl Refusal {
    // The number that a call returns for it.
    pub fn number(self) -> u8
        ensures { result ≡ refusal_number self }
    {
        self as u8
    }
}
