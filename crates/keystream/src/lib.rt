// Keystreams of any generator, with the unit as a parameter: specs/ says what a line's keystream is, proofs/ has its laws, and the code here is what a cipher's state does.
// The caller must ensure that text and buffer have the bytes of what is written.

#![tactic(auto)]

ghost use Rattle.std.specs.Prelude.{◌≡◌, ◌⊎◌, ℕ, ◌+◌, ◌*◌, ◌<◌, ◌≤◌, length};
ghost use Rattle.keystream.specs.Stream.{Gen, BytesPut};

// A generator as a value, which is its state.
pub trait Generator: Copy {
    ghost generator: { Gen Self };

    ghost UNIT: { ℕ };

    ghost TURN: { ℕ };

    // The bytes of a unit.
    const UNIT: usize;

    // The bytes of a turn of a crypt's loop: two units or eight.
    const TURN: usize;

    // The state after this one.
    fn step(self) -> Self
        ensures { result ≡ generator.next self };

    // The bytes of the unit, with the first of text, go to the start of out. Returns the state after this one.
    fn put_unit(self, text: &[u8], out: &mut [u8]) -> Self
        requires { (UNIT ≤ length text.now) × (UNIT ≤ length out.old) }
        ensures put { BytesPut (generator.strm self) 0 UNIT text.now out.old out.new }
        ensures next { result ≡ generator.next self };

    // count bytes of the unit from its byte from on, with the first of text, go to the start of out.
    fn put_part(self, from: usize, count: usize, text: &[u8], out: &mut [u8])
        requires { (from + count ≤ UNIT) × ((count ≤ length text.now) × (count ≤ length out.old)) }
        ensures { BytesPut (generator.strm self) from count text.now out.old out.new };

    ghost unit_is: { generator.unit ≡ UNIT };

    ghost unit_pos: { 0 < UNIT };

    ghost turn_is: { (TURN ≡ 2 * UNIT) ⊎ (TURN ≡ 8 * UNIT) };
}
