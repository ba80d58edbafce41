//! The records of a text that comes in parts, judged one after another.
ghost use Rattle.std.specs.Prelude.{◌≡◌, ◌+◌, ◌++◌, ◌≤◌, ℕ, List, [], None};
ghost use Rattle.std.specs.Prelude.{OnOk, length, take};
ghost use Rattle.csv_records.specs.Records.{Fields, csv_records};
ghost use Rattle.budget_command.specs.Tables.{CanGoOn, HasJudged, HasJudgedTo};

use crate::drafts::Drafts;
use crate::fault::RecordFault;
use crate::table::{Table, TableFault, fill};
use csv_records::WaitingText;
use std::alloc::{AllocError, Global};

/// What came of the records so far.
#[derive(Drop)]
pub struct Judging {
    /// The rows of the records that keep the rules.
    pub table: Table,
    /// The number of the record that is next, from 1; where one broke a rule, that record's.
    pub number: u64,
    /// The rule that the first such record broke. No record behind it is judged.
    pub fault: Option<RecordFault>,
    /// Rows of the sources that came.
    drafts: Drafts,
}

impl Judging {
    /// Before the first record.
    pub(crate) fn new(alloc: Global) -> Judging
        ensures { HasJudged [] result }
    {
        let table = Table::new(alloc);
        Judging {
            table,
            number: 1,
            fault: None,
            drafts: Drafts::new(),
        }
    }

    /// Judges the records of one more part, where none broke a rule before it.
    fn judge_more(&mut self, alloc: Global, part: &[u8]) -> Result<(), AllocError>
        requires unbroken { self.old.fault ≡ None }
        requires going { CanGoOn self.old.table self.old.number }
        requires few { self.old.number + length (csv_records part.now) ≤ u64.MAX }
        ensures { OnOk result ((before : List Fields) → HasJudged before self.old →
            HasJudged (before ++ csv_records part.now) self.new) }
    {
        match fill(&mut self.table, &mut self.drafts, alloc, self.number, part) {
            Ok(next) => {
                self.number = next;
                Ok(())
            }
            Err(TableFault::Broken { number, fault }) => {
                self.number = number;
                self.fault = Some(fault);
                Ok(())
            }
            Err(TableFault::NoMemory) => Err(AllocError),
        }
    }

    /// Judges the records of one more part of the text.
    pub(crate) fn judge_part(&mut self, alloc: Global, part: &[u8]) -> Result<(), AllocError>
        requires going { self.old.fault ≡ None → CanGoOn self.old.table self.old.number }
        requires few { self.old.number + length (csv_records part.now) ≤ u64.MAX }
        ensures { OnOk result ((before : List Fields) → HasJudged before self.old →
            HasJudged (before ++ csv_records part.now) self.new) }
    {
        match self.fault {
            None => self.judge_more(alloc, part),
            Some(_) => Ok(()),
        }
    }
}

/// Takes one more piece of the text: judges the records up to the last one that ends in it, and
/// keeps the rest.
pub(crate) fn take_piece(
    judging: &mut Judging,
    waiting: &mut WaitingText,
    alloc: Global,
    piece: &[u8],
) -> Result<(), AllocError>
    requires going { judging.old.fault ≡ None →
        CanGoOn judging.old.table judging.old.number }
    requires few { (count : ℕ) → judging.old.number
        + length (csv_records (waiting.old ++ take count piece.now)) ≤ u64.MAX }
    ensures { OnOk result ((seen : List ℕ) → HasJudgedTo seen waiting.old judging.old →
        HasJudgedTo (seen ++ piece.now) waiting.new judging.new) }
{
    let count = waiting.add(piece)?;
    if count == 0 {
        return Ok(());
    }
    judging.judge_part(alloc, waiting.text())?;
    waiting.restart(&piece[count..])
}
