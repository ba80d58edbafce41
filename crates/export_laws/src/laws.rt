//! What the moves of a legal history make.
ghost use Rattle.export_laws.specs.Alike.{SameAlerts, SameAnswers, SameMoves, SameStates};
ghost use Rattle.export_laws.specs.Alike.{SameSums};
ghost use Rattle.export_laws.specs.Anew.{MovesMakeAnew, MovesMakeEqual};
ghost use Rattle.export_laws.specs.Coming.{ComingMakesEqual};

/// The upgrade, zones, objects and rows of a legal history, sent one after another to an empty
/// office, are accepted each, and make its version, catalog, zones and rows.
pub fn moves_make_an_office_anew()
    ensures { MovesMakeAnew }
{
    yaml_writing::laws::standing_nodes_are_writable();
    object_laws::laws::bodies_are_of_their_kinds();
    object_laws::laws::each_object_can_be_written();
    object_laws::laws::each_object_reads_back();
    history_laws::laws::legal_rows_are_read();
    history_laws::laws::legal_days_are_few();
}

/// Whatever becomes of the moves of a legal history that come to an empty office one after another,
/// they are accepted each, and make an equal office with a legal history.
pub fn moves_make_an_equal_office()
    ensures judged { MovesMakeEqual }
    ensures coming { ComingMakesEqual }
{
    yaml_writing::laws::standing_nodes_are_writable();
    object_laws::laws::bodies_are_of_their_kinds();
    object_laws::laws::each_object_can_be_written();
    object_laws::laws::each_object_reads_back();
    history_laws::laws::legal_rows_are_read();
    history_laws::laws::legal_days_are_few();
    history_laws::laws::one_judgement();
}

/// An equal office has the same moves, says of each SLO of its catalog the same sums, alerts and
/// states, and answers each query but those for notices, entries, exclusions and how full it is
/// alike, but for the count of its entries.
pub fn equal_offices_answer_alike()
    ensures moves { SameMoves }
    ensures sums { SameSums }
    ensures alerts { SameAlerts }
    ensures states { SameStates }
    ensures answers { SameAnswers }
{}
