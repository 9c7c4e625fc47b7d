// Sealed call records: MULTI-S01 (ISO/IEC 18033-4, 6.2.3) over any of the ciphers, a message sealed and opened as a whole.
// `seal` and `open` ask nothing of the caller.
#![tactic(auto)]

ghost use Rattle.std.specs.Prelude.{◌≡◌, length};
ghost use Rattle.command.specs.Decode.{number_of};
ghost use Rattle.card_sizes.specs.Sizes.{key_length, iv_length};
ghost use Rattle.sealing_rules.specs.Sealing.{key_blocks, seal_by, open_by, seal_of, unseal_of};
ghost use Rattle.sealing_rules.specs.Answer.{Answered};
ghost use Rattle.sealing_steps.specs.Steps.{Sized, Openable};

use card_sizes::{IV, KEY};
use command::{Cipher, Refusal};
use multi_s01::{chain, is_genuine};
use sealing_rules::{
    ADDED, MESSAGE, REDUNDANCY, admit, message_length, message_ok, release, sealed_ok,
};
use sealing_steps::{recover, sums};
use sealing_stream::Walk;

// The longest sealed message.
const SEALED: usize = MESSAGE + ADDED;

// A sealing, past the checks.
fn seal_with(
    c: Cipher,
    key: &[u8],
    iv: &[u8],
    redundancy: &[u8],
    message: &[u8],
    out: &mut [u8],
) -> Result<usize, Refusal>
    requires key_len { (length key.now ≡ key_length) × (length iv.now ≡ iv_length) }
    requires sized { Sized redundancy.now message.now (length out.old) }
    ensures { Answered (seal_by (key_blocks (number_of c) key.now iv.now) redundancy.now message.now)
        out.old result out.new }
{
    let mut walk = Walk::start(c, key, iv);
    let Some(found) = walk.first() else {
        return Err(Refusal::NotGenuine);
    };
    sums(&mut walk, redundancy, message, out);
    let count = message.len() / 8 + 2;
    chain(found.a, count, out);
    Ok(8 * count)
}

// A message sealed: its blocks, padding and redundancy go to the start of out, and how many bytes they are is returned.
pub fn seal(
    cipher: u8,
    key: &[u8; KEY],
    iv: &[u8; IV],
    redundancy: &[u8; REDUNDANCY],
    message: &[u8],
    out: &mut [u8],
) -> Result<usize, Refusal>
    ensures { Answered (seal_of cipher key.now iv.now redundancy.now message.now (length out.old))
        out.old result out.new }
{
    let n = message.len();
    let c = admit(message_ok(n), cipher, key, iv, n + ADDED, out.len())?;
    seal_with(c, key, iv, redundancy, message, out)
}

// An opening, past the checks. The message is kept until its padding and redundancy are tested.
fn open_with(
    c: Cipher,
    key: &[u8],
    iv: &[u8],
    redundancy: &[u8],
    sealed: &[u8],
    out: &mut [u8],
) -> Result<usize, Refusal>
    requires key_len { (length key.now ≡ key_length) × (length iv.now ≡ iv_length) }
    requires openable { Openable redundancy.now sealed.now (length out.old) }
    ensures { Answered (open_by (key_blocks (number_of c) key.now iv.now) redundancy.now sealed.now)
        out.old result out.new }
{
    let mut walk = Walk::start(c, key, iv);
    let Some(found) = walk.first() else {
        return Err(Refusal::NotGenuine);
    };
    let mut held = [0u8; SEALED];
    let last = recover(&mut walk, found.a, sealed, &mut held);
    let n = sealed.len() - ADDED;
    let genuine = is_genuine(&held, n, last, redundancy);
    release(genuine, &held[..n], out)
}

// A sealed message opened: the message goes to the start of out, and how many bytes it has is returned.
pub fn open(
    cipher: u8,
    key: &[u8; KEY],
    iv: &[u8; IV],
    redundancy: &[u8; REDUNDANCY],
    sealed: &[u8],
    out: &mut [u8],
) -> Result<usize, Refusal>
    ensures { Answered (unseal_of cipher key.now iv.now redundancy.now sealed.now (length out.old))
        out.old result out.new }
{
    let n = sealed.len();
    let c = admit(sealed_ok(n), cipher, key, iv, message_length(n), out.len())?;
    open_with(c, key, iv, redundancy, sealed, out)
}
