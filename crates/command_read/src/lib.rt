// A command read from its bytes, operand by operand, into the enum or refused.
// The caller of `decode` holds nothing: any bytes are read.
#![tactic(auto)]

ghost use Rattle.std.specs.Prelude.{◌≡◌, ◌≤◌, length};
ghost use Rattle.card_sizes.specs.Sizes.{change_length};
ghost use Rattle.command.specs.Decode.{length_of, open_of, crypt_of, change_of, command_of, decode_of};
ghost use Rattle.command.specs.Kinds.{kind_number};

use card_sizes::CHANGE_AT;
use command::{Cipher, Command, Kind, Refusal};

// An open, from the tray or with its own key, or a load.
fn read_open(kind: Kind, s: &[u8]) -> Result<Command, Refusal>
    requires { 4 ≤ length s.now }
    ensures { result ≡ open_of (kind_number kind) s.now }
{
    let line = s[1];
    let cipher = Cipher::try_from(s[2])?;
    let key = s[3];
    Ok(match kind {
        Kind::Tray => Command::Tray { line, cipher, key },
        Kind::Own => Command::Own { line, cipher },
        _ => Command::Load { line, cipher, key },
    })
}

// A crypt.
fn read_crypt(s: &[u8]) -> Command
    requires { 4 ≤ length s.now }
    ensures { crypt_of s.now ≡ Ok result }
{
    let line = s[1];
    let count = u16::from_be_bytes([s[2], s[3]]) as usize;
    Command::Crypt { line, count }
}

// A change of key.
fn read_change(s: &[u8]) -> Command
    requires { change_length ≤ length s.now }
    ensures { change_of s.now ≡ Ok result }
{
    let line = s[1];
    let key = s[2];
    let high = words::word_at(s, CHANGE_AT) as u64;
    let low = words::word_at(s, CHANGE_AT + 4) as u64;
    let position = high * 4294967296 + low;
    Command::Change {
        line,
        key,
        position,
    }
}

// A command that is whole, by its kind.
fn read_command(kind: Kind, s: &[u8]) -> Result<Command, Refusal>
    requires { length_of (kind_number kind) ≤ length s.now }
    ensures { result ≡ command_of (kind_number kind) s.now }
{
    let line = s[1];
    Ok(match kind {
        Kind::Tray | Kind::Own | Kind::Load => read_open(kind, s)?,
        Kind::Crypt => read_crypt(s),
        Kind::Park => Command::Park { line },
        Kind::Resume => Command::Resume { line },
        Kind::Close => Command::Close { line },
        Kind::Change => read_change(s),
        Kind::Start => Command::Start { line },
    })
}

// The command, or what refuses it: 1 empty or cut short, 2 unknown, 3 no such line, 4 no such cipher.
pub fn decode(command: &[u8]) -> Result<Command, Refusal>
    ensures { result ≡ decode_of command.now }
{
    if command.is_empty() {
        return Err(Refusal::CutShort);
    }
    let kind = Kind::try_from(command[0])?;
    if command.len() < kind.length() {
        return Err(Refusal::CutShort);
    }
    if command[1] > 7 {
        return Err(Refusal::NoSuchLine);
    }
    read_command(kind, command)
}
