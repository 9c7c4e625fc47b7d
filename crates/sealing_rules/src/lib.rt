// What the pair that seals and opens call records looks at before the keystream, what it answers, and how an opening ends.
// The caller must ensure only that a key has its bytes, and out room for a message.
#![tactic(auto)]

ghost use Rattle.std.specs.Prelude.{◌≡◌, true, not, ◌-◌, ◌≤◌, length};
ghost use Rattle.card_sizes.specs.Sizes.{key_length};
ghost use Rattle.command.specs.Decode.{number_of, refusal_of};
ghost use Rattle.sealing_rules.specs.Sealing.{accepted, refused_where, seal_adds, message_ok, sealed_ok, check_of};
ghost use Rattle.sealing_rules.specs.Answer.{Admits, Answered};

use card_keys::key_check;
use command::{Cipher, Refusal};

// The longest message, and what sealing adds to it.
pub const MESSAGE: usize = 16384;

pub const ADDED: usize = 16;

// The bytes of a redundancy.
pub const REDUNDANCY: usize = 8;

// Whether a message may have n bytes.
pub fn message_ok(n: usize) -> bool
    ensures { result ≡ message_ok n }
{
    n <= MESSAGE && n % 8 == 0
}

// The bytes of the message where a sealed message has n, and 0 where no sealed message is as short.
pub fn message_length(n: usize) -> usize
    ensures { result ≡ n - seal_adds }
{
    n.saturating_sub(ADDED)
}

// Whether a sealed message has n bytes.
pub fn sealed_ok(n: usize) -> bool
    ensures { result ≡ sealed_ok n }
{
    ADDED <= n && message_ok(n - ADDED)
}

// The first check of key, IV and room that refuses.
fn key_and_room(c: Cipher, key: &[u8], iv: &[u8], need: usize, room: usize) -> Result<(), Refusal>
    requires { length key.now ≡ key_length }
    ensures { refusal_of result ≡ check_of true (number_of c) key.now iv.now need room }
{
    key_check(c, key, iv)?;
    if room < need {
        return Err(Refusal::OutTooShort);
    }
    Ok(())
}

// All checks in their order, where ok says that the length is right and need how many bytes are to be written: the cipher, or the first that refuses.
pub fn admit(
    ok: bool,
    cipher: u8,
    key: &[u8],
    iv: &[u8],
    need: usize,
    room: usize,
) -> Result<Cipher, Refusal>
    requires { length key.now ≡ key_length }
    ensures { Admits (check_of ok cipher key.now iv.now need room) cipher result }
{
    if !ok {
        return Err(Refusal::MessageLength);
    }
    let c = Cipher::try_from(cipher)?;
    key_and_room(c, key, iv, need, room)?;
    Ok(c)
}

// The end of an opening: a message that is genuine goes to the start of out, and its length is returned; else out stands as it did.
pub fn release(genuine: bool, message: &[u8], out: &mut [u8]) -> Result<usize, Refusal>
    requires { length message.now ≤ length out.old }
    ensures { Answered (refused_where (not genuine) 24 (accepted message.now)) out.old result out.new }
{
    if !genuine {
        return Err(Refusal::NotGenuine);
    }
    buffer::put(message, out);
    Ok(message.len())
}
