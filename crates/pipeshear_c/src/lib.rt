// The library for C: the exports that include/pipeshear.h declares. Each calls the function of crates/pipeshear that has its name, and promises what that promises.
// A slice is a pointer and a length. Nothing is asked of the caller but what the header says of pointers.
#![tactic(auto)]

ghost use Rattle.card_outcome.specs.Leaves.{call_of};
ghost use Rattle.pipeshear.specs.Calls.{EntryPromise};
ghost use Rattle.seal_calls.specs.Seals.{SealPromise, UnsealPromise};

// A call on a card's words. Returns the code. The three counts are the bytes used of command and of data, and the bytes written to out; they are zeros
// where the code is not 0. 255 where card has not a card's words or counts not three; then counts that are not three stay as they are.
#[unsafe(no_mangle)]
pub extern "C" fn pipeshear_call<'a>(
    card: &mut [u32],
    command: &'a [u8],
    tray: &'a [u8],
    data: &[u8],
    out: &mut [u8],
    counts: &mut [usize],
) -> u8
    ensures { EntryPromise card.old
        (call_of command.now tray.now «data».now out.old) counts.old
        result card.new out.new counts.new }
{
    pipeshear::pipeshear_call(card, command, tray, data, out, counts)
}

// A message sealed. Returns the code; 255 where an array has not its length, and then nothing is changed.
#[unsafe(no_mangle)]
pub extern "C" fn pipeshear_seal(
    cipher: u8,
    key: &[u8],
    iv: &[u8],
    redundancy: &[u8],
    message: &[u8],
    out: &mut [u8],
    written: &mut [usize],
) -> u8
    ensures { SealPromise cipher key.now iv.now redundancy.now message.now out.old
        written.old result out.new written.new }
{
    pipeshear::seals::pipeshear_seal(cipher, key, iv, redundancy, message, out, written)
}

// A sealed message opened. Returns the code; 255 where an array has not its length, and then nothing is changed.
#[unsafe(no_mangle)]
pub extern "C" fn pipeshear_unseal(
    cipher: u8,
    key: &[u8],
    iv: &[u8],
    redundancy: &[u8],
    sealed: &[u8],
    out: &mut [u8],
    written: &mut [usize],
) -> u8
    ensures { UnsealPromise cipher key.now iv.now redundancy.now sealed.now out.old
        written.old result out.new written.new }
{
    pipeshear::seals::pipeshear_unseal(cipher, key, iv, redundancy, sealed, out, written)
}
