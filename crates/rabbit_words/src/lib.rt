// What a loaded line keeps of a key of Rabbit, as words, and S(0) of it.
// The caller must ensure the lengths of key and IV, and a state that Rabbit admits.
#![tactic(auto)]

ghost use Rattle.std.specs.Prelude.{◌≡◌, true, length};
ghost use Rattle.rabbit.specs.Cipher.{master, started};
ghost use Rattle.ciphers.specs.States.{state_words, rabbit_words, rabbit_state};
ghost use Rattle.ciphers.specs.Table.{rabbit};

use card_sizes::STATE;
use cipher_words::Stored;
use rabbit::Rabbit;

// The state after step 3 of 7.3.2 of a key, which is kept for every IV.
pub fn keep(key: &[u8]) -> [u32; STATE]
    requires { length key.now ≡ 16 }
    ensures { result ≡ rabbit_words (master key.now) }
{
    Rabbit::master(key).words()
}

// S(0) of what is kept of a key and an IV.
pub fn start(kept: &[u32], iv: &[u8]) -> [u32; STATE]
    requires kept_len { (length kept.now ≡ state_words) × (rabbit.admits kept.now ≡ true) }
    requires iv_len { length iv.now ≡ 8 }
    ensures { result ≡ rabbit_words (started (rabbit_state kept.now) iv.now) }
{
    Rabbit::load(kept).start(iv).words()
}
