//! What legal histories keep, and what becomes of a change that comes again.
ghost use Rattle.history_laws.specs.BeforeUpgrade.{OldHistoriesStayLegal};
ghost use Rattle.history_laws.specs.BeforeUpgrade.{OldRequestsKeepTheirOutcomes};
ghost use Rattle.history_laws.specs.Judged.{OneJudgement};
ghost use Rattle.history_laws.specs.Kept.{CurrentRowsAreRead, DaysAreFew, RowsAreRead};
ghost use Rattle.history_laws.specs.Once.{BatchActsOnce, BatchBringsNothing};
ghost use Rattle.history_laws.specs.Once.{ChangesActOnce, NoneStandsTwice};

use yaml_writing::laws;

/// A command has one judgement at most over an office at a moment.
pub fn one_judgement()
    ensures { OneJudgement }
{
    definition_verdict::laws::one_verdict();
}

/// In a legal history the indicator of each row is in the catalog, and the row's amount has the
/// form of the indicator's reading. This holds of all rows of its batches, and so of the current
/// ones.
pub fn legal_rows_are_read()
    ensures rows { RowsAreRead }
    ensures current { CurrentRowsAreRead }
{
    // So what is called an indicator is one.
    laws::standing_nodes_are_writable();
    object_laws::laws::bodies_are_of_their_kinds();
}

/// In a legal history at most `MAX_DAYS` pairs of an objective and a day have a current row of the
/// objective's indicator.
pub fn legal_days_are_few()
    ensures { DaysAreFew }
{}

/// A batch that is an entry of a legal history leaves all as it is when it comes again, at any
/// moment from the present on: none of its rows is new or newer, and it adds no entry.
pub fn a_batch_acts_once()
    ensures same { BatchActsOnce }
    ensures settled { BatchBringsNothing }
{
    legal_rows_are_read();
    legal_days_are_few();
}

/// A batch, a zone, an exclusion, a lifting, a taking or an upgrade that is an entry of a legal
/// history leaves all as it is when it comes again, at any moment from the present on; it adds no
/// entry. Only an exclusion whose id was lifted since is refused then, as withdrawn.
pub fn each_change_acts_once()
    ensures { ChangesActOnce }
{
    a_batch_acts_once();
    catalog_changes::laws::a_zone_acts_once();
    sample_changes::laws::an_exclusion_acts_once();
    sample_changes::laws::a_lifting_acts_once();
    notice_changes::laws::a_taking_acts_once();
    sample_changes::laws::an_upgrade_acts_once();
}

/// No batch, zone, exclusion, lifting, taking or upgrade is an entry of a legal history twice.
pub fn no_change_stands_twice()
    ensures { NoneStandsTwice }
{
    catalog_changes::laws::a_history_begins_legally();
    each_change_acts_once();
}

/// A history that was legal before offices could be upgraded is legal.
pub fn an_old_history_stays_legal()
    ensures { OldHistoriesStayLegal }
{}

/// Over such a history a request from before, a query or a change with no withdrawn row that is no
/// upgrade, has the outcomes that it had, and no others.
pub fn an_old_request_keeps_its_outcome()
    ensures { OldRequestsKeepTheirOutcomes }
{}
