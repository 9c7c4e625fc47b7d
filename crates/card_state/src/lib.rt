// Words of a state that are borrowed, as a value.
// The caller must ensure that as many words are borrowed as are taken.
#![tactic(auto)]

ghost use Rattle.std.specs.Prelude.{◌≡◌, ◌≤◌, length, take};
ghost use Rattle.card_sizes.specs.Sizes.{state_words};

use card_sizes::STATE;

// The first N of the words.
pub fn front<const N: usize>(w: &[u32]) -> [u32; N]
    requires { N ≤ length w.now }
    ensures { result ≡ take N w.now }
{
    let mut a = [0u32; N];
    a.copy_from_slice(&w[..N]);
    a
}

// The words of a state, all of them.
pub fn state_of(w: &[u32]) -> [u32; STATE]
    requires { length w.now ≡ state_words }
    ensures { result ≡ w.now }
{
    front(w)
}
