// The record that the program keeps of a call, behind those before it in a buffer.
// The caller must ensure that the buffer has room for a record, and that an accepted command names a line of the card.
#![tactic(auto)]

ghost use Rattle.card_layout.specs.Words.{card_in};
ghost use Rattle.text.specs.Text.{Room, Written};
ghost use Rattle.session_records.specs.Recorded.{record_for, Named};

use card_sizes::CARD;
use text::Text;

// The record of a call with this code, on a card that has these words after it, goes behind those before it: one of an accepted crypt, of
// any other call none.
pub fn put_record(code: u8, command: &[u8], card: &[u32; CARD], used: usize, records: &mut Text)
    requires named { Named code command.now }
    requires room { Room 10 records.old }
    ensures { Written (record_for code command.now (card_in card.now) used) records.old records.new }
{
    if code != 0 {
        return;
    }
    if command[0] != 3 {
        return;
    }
    let line = command[1];
    let cipher = card_layout::cipher_at(card, line);
    records::put(line, cipher, used as u64, records);
}
