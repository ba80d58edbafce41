//! Laws of what messages stand for.
ghost use Rattle.wire_routes.specs.Laws.{OneAnswer, SomeAnswer};

/// What a message says stands for one answer alone.
pub fn a_message_stands_for_one_answer()
    ensures { OneAnswer }
{}

/// Whatever a message says, it stands for an answer.
pub fn a_message_stands_for_something()
    ensures { SomeAnswer }
{}
