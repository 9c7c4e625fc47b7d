// What refuses a command by numbers alone: the first row that is given.
// The caller need not ensure anything.
#![tactic(auto)]

ghost use Rattle.std.specs.Prelude.{◌≡◌};
ghost use Rattle.command.specs.Decode.{refusal_of};
ghost use Rattle.command.specs.Rows.{code_of};
ghost use Rattle.card_rows.specs.Rows.{crypt_rows, park_rows, change_rows, tray_rows};

use card_moves::beyond;
use card_sizes::{FULL_TRAY, KEY, LIMIT};
use command::Refusal;

// Of a crypt of count bytes on a line in this mode at n, with a change that waits at due or none, and data and out of these lengths: 6, 13, 11 or 12.
pub fn crypt_check(
    mode: u8,
    n: u64,
    due: u64,
    count: usize,
    text: usize,
    out: usize,
) -> Result<(), Refusal>
    ensures { refusal_of result ≡ code_of (crypt_rows mode n due count text out) }
{
    if mode != 1 {
        return Err(Refusal::NotOpen);
    }
    if beyond(n, due, count as u64) {
        return Err(Refusal::PastTheEnd);
    }
    if text < count {
        return Err(Refusal::DataTooShort);
    }
    if out < count {
        return Err(Refusal::OutTooShort);
    }
    Ok(())
}

// Of a park of a line in this mode, with a change that waits at due or none: 6 or 17.
pub fn park_check(mode: u8, due: u64) -> Result<(), Refusal>
    ensures { refusal_of result ≡ code_of (park_rows mode due) }
{
    if mode != 1 {
        return Err(Refusal::NotOpen);
    }
    if due != 0 {
        return Err(Refusal::ChangeWaits);
    }
    Ok(())
}

// Of a change at position p on a line in this mode at n, with a change that waits at due or none: 6, 17 or 18.
pub fn change_check(mode: u8, n: u64, due: u64, p: u64) -> Result<(), Refusal>
    ensures { refusal_of result ≡ code_of (change_rows mode n due p) }
{
    park_check(mode, due)?;
    if p < n || p > LIMIT {
        return Err(Refusal::ChangePosition);
    }
    Ok(())
}

// Of key k of a tray of this length: 9 or 10.
pub fn tray_check(tray: usize, k: u8) -> Result<(), Refusal>
    ensures { refusal_of result ≡ code_of (tray_rows tray k) }
{
    if tray % KEY != 0 || tray > FULL_TRAY {
        return Err(Refusal::TrayLength);
    }
    if tray < KEY * (k as usize) + KEY {
        return Err(Refusal::NoSuchKey);
    }
    Ok(())
}
