//! Laws of histories and of the files that stand for them.
ghost use Rattle.office_keep.specs.Laws.{OneDamage, OneHistory, OneJudgement};

use record_form::laws;

/// A command has one judgement at a moment, so an entry that is refused, or changes nothing, is in
/// no legal history.
pub fn one_judgement()
    ensures { OneJudgement }
{}

/// A file stands for one history at most.
pub fn one_history()
    ensures { OneHistory }
{
    laws::no_record_begins_another();
}

/// A file is damaged at one place at most.
pub fn one_damage()
    ensures { OneDamage }
{}
