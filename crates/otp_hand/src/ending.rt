//! Which letters tell the end of a process.
ghost use Rattle.std.specs.Prelude.{◌≡◌};
ghost use Rattle.otp_rules.specs.declared.event.Item.TheVariants as item;
ghost use Rattle.otp_hand.specs.Ended.{end_of, ends_held};

use crate::places::said_in;
use crate::runner::Unsent;
use otp_reason::Note;
use otp_rules::Item;

/// 1 for the note of a process's end, else 0.
pub fn count_end(note: Note) -> u64
    ensures { result ≡ end_of (item.Note note) }
{
    match note {
        Note::Up(_) => 0,
        Note::Ignored(_) | Note::Failed(..) | Note::Exit(..) => 1,
    }
}

/// 1 where the letter that a hand still had to send tells the end of a process, else 0. The letter is dropped.
pub fn count_held<J: Drop, S: Drop>(unsent: Option<Unsent<J, S>>) -> u64
    ensures { result ≡ ends_held unsent }
{
    let Some(
        Unsent {
            ticket: _,
            letter,
            note: _,
        },
    ) = unsent
    else {
        return 0;
    };
    match said_in(letter) {
        Item::Note(note) => count_end(note),
        Item::Call(..) => 0,
    }
}
