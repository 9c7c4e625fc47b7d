// Items put to the start of a borrowed buffer; what is behind them stays.
// The caller must ensure that the buffer has room for them.
#![tactic(auto)]

ghost use Rattle.std.specs.Prelude.{◌≡◌, ◌++◌, ◌≤◌, length, drop};

// The items of s go to the start of out.
pub fn put<T: Copy>(s: &[T], out: &mut [T])
    requires { length s.now ≤ length out.old }
    ensures { out.new ≡ s.now ++ drop (length s.now) out.old }
{
    out[..s.len()].copy_from_slice(s);
}
