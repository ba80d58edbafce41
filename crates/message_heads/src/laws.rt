//! Laws of what is heard: it is one thing, and pieces don't change it.
ghost use Rattle.message_heads.specs.Laws.{AtMostOneDecision, DecidedIsNotPassed, HeardIsKept};
ghost use Rattle.message_heads.specs.Streams.{OneStream};

/// The bytes have one decision, but where a target is still open.
pub fn at_most_one_decision()
    ensures { AtMostOneDecision }
{}

/// Bytes that are decided aren't waiting for more, but where a target is still open.
pub fn decided_is_not_passed()
    ensures { DecidedIsNotPassed }
{}

/// What was heard stays heard where more bytes follow.
pub fn heard_is_kept()
    ensures { HeardIsKept }
{}

/// As many messages from the front of a stream are the same, and leave the same bytes.
pub fn a_message_begins_one_stream()
    ensures { OneStream }
{}
