// The pair that seals and opens records, for programs in C and Rust.
// Nothing is asked of the caller: any cipher, lengths and buffers get an answer.
ghost use Rattle.seal_calls.specs.Seals.{SealPromise, UnsealPromise};

// A message sealed. Returns the code; 255 where an array has not its length, and then nothing is changed.
pub fn pipeshear_seal(
    cipher: u8,
    key: &[u8],
    iv: &[u8],
    redundancy: &[u8],
    message: &[u8],
    out: &mut [u8],
    written: &mut [usize],
) -> u8
    ensures { SealPromise cipher key.now iv.now redundancy.now message.now out.old
        written.old result out.new written.new }
{
    seal_calls::seal(cipher, key, iv, redundancy, message, out, written)
}

// A sealed message opened. Returns the code; 255 where an array has not its length, and then nothing is changed.
pub fn pipeshear_unseal(
    cipher: u8,
    key: &[u8],
    iv: &[u8],
    redundancy: &[u8],
    sealed: &[u8],
    out: &mut [u8],
    written: &mut [usize],
) -> u8
    ensures { UnsealPromise cipher key.now iv.now redundancy.now sealed.now out.old
        written.old result out.new written.new }
{
    seal_calls::unseal(cipher, key, iv, redundancy, sealed, out, written)
}
