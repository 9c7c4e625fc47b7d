// The pair that seals and opens records on slices of any length, which are tested first; the bytes written go to an array of one.
// Nothing is asked of the caller: any cipher, lengths and buffers get an answer.
#![tactic(auto)]

ghost use Rattle.std.specs.Prelude.{◌≡◌, true, false, [], ◌∷◌, length, MatchOption};
ghost use Rattle.command.specs.Decode.{refusal_of};
ghost use Rattle.sealing_rules.specs.Answer.{written_of};
ghost use Rattle.seal_calls.specs.Seals.{arrays_ok, SealPromise, UnsealPromise};

use card_sizes::{IV, KEY};
use command::Refusal;
use sealing_rules::REDUNDANCY;

// The code of an answer, whose count of bytes written is stored.
fn stored(answer: Result<usize, Refusal>, written: &mut [usize]) -> u8
    requires { length written.old ≡ 1 }
    ensures code { result ≡ refusal_of answer }
    ensures count { written.new ≡ written_of answer ∷ [] }
{
    match answer {
        Ok(n) => {
            written[0] = n;
            0
        }
        Err(e) => {
            written[0] = 0;
            e.number()
        }
    }
}

// Key, IV and redundancy as arrays; none where one of them has not its length, or the array of the bytes written.
fn arrays<'a>(
    key: &'a [u8],
    iv: &'a [u8],
    redundancy: &'a [u8],
    written: &[usize],
) -> Option<(&'a [u8; KEY], &'a [u8; IV], &'a [u8; REDUNDANCY])>
    ensures { MatchOption result (arrays_ok (length key.now) (length iv.now) (length redundancy.now) (length written.now) ≡ false)
        (λ a. (arrays_ok (length key.now) (length iv.now) (length redundancy.now) (length written.now) ≡ true)
        × (a.0.now ≡ key.now) × (a.1.now ≡ iv.now) × (a.2.now ≡ redundancy.now)) }
{
    if written.len() != 1 {
        return None;
    }
    Some((
        key.try_into().ok()?,
        iv.try_into().ok()?,
        redundancy.try_into().ok()?,
    ))
}

// A message sealed. Returns the code; 255 where an array has not its length, and then nothing is changed.
pub fn seal(
    cipher: u8,
    key: &[u8],
    iv: &[u8],
    redundancy: &[u8],
    message: &[u8],
    out: &mut [u8],
    written: &mut [usize],
) -> u8
    ensures { SealPromise cipher key.now iv.now redundancy.now message.now out.old
        written.old result out.new written.new }
{
    let Some((key, iv, redundancy)) = arrays(key, iv, redundancy, written) else {
        return 255;
    };
    stored(
        sealing::seal(cipher, key, iv, redundancy, message, out),
        written,
    )
}

// A sealed message opened. Returns the code; 255 where an array has not its length, and then nothing is changed.
pub fn unseal(
    cipher: u8,
    key: &[u8],
    iv: &[u8],
    redundancy: &[u8],
    sealed: &[u8],
    out: &mut [u8],
    written: &mut [usize],
) -> u8
    ensures { UnsealPromise cipher key.now iv.now redundancy.now sealed.now out.old
        written.old result out.new written.new }
{
    let Some((key, iv, redundancy)) = arrays(key, iv, redundancy, written) else {
        return 255;
    };
    stored(
        sealing::open(cipher, key, iv, redundancy, sealed, out),
        written,
    )
}
