//! What holds of following: laws without code.
ghost use Rattle.follow_laws.specs.Laws.{HasOneEnd, KeepsWhatWasHeld, LeadsToTheHistory};

use catalog_changes::laws::a_history_begins_legally;
use record_form::laws::{an_entry_is_read_back, records_have_sizes};

/// What an office held stays, and each entry that it took is the input's at its position.
pub fn following_keeps_what_was_held()
    ensures { KeepsWhatWasHeld }
{}

/// Feeds of fronts of one legal history lead an office that holds a front of it to that history: at
/// each end it holds a front that begins with what it held, no entry is refused, and where all is
/// followed it has all that it held or that a feed reached.
pub fn true_feeds_lead_to_the_history()
    ensures { LeadsToTheHistory }
{
    a_history_begins_legally();
    an_entry_is_read_back();
    records_have_sizes();
}

/// An input has one end over an office, and leaves one office, but where a read, the disk or want
/// of memory ended it.
pub fn following_has_one_end()
    ensures { HasOneEnd }
{}
