//! The fields of records, read from the front of bytes and written behind others.
ghost use Rattle.std.specs.Prelude.{◌≡◌, ◌++◌, [], OnOk, IsTrue};
ghost use Rattle.std.specs.Int.{w32};
ghost use Rattle.exact_fraction.specs.Label.{is_label};
ghost use Rattle.exact_fraction.specs.ZoneName.{is_zone_name};
ghost use Rattle.record_form.specs.Form.{number, text, byte, reading_of_each};
ghost use Rattle.record_form.specs.Records.{amount as amount_form, exclusion as exclusion_form};
ghost use Rattle.record_form.specs.Records.{kind as kind_form, kind_byte as kind_byte_def};
ghost use Rattle.record_form.specs.Records.{kind_of_byte, label as label_form, row as row_form};
ghost use Rattle.record_form.specs.Records.{rows as rows_form, text_within};
ghost use Rattle.record_form.specs.Records.{zone_name as zone_name_form};
ghost use Rattle.record_form.specs.Reading.{Reads, ReadsAs, reading_behind};

use crate::command::Rows;
use crate::cursor::{Cursor, Unread};
use exact_fraction::{Bytes, Decimal, Label, ZoneName, read_label, read_zone_name};
use object_terms::Kind;
use sample_book::{Exclusion, Row};
use slice_method::Amount;
use slo_limits::{MAX_BATCH_ROWS, MAX_DECIMAL, MAX_MINUTE, MAX_REVISION};
use std::alloc::Global;

/// The greatest bound of an exclusion: above the end of any office's range.
pub const MAX_EXCLUDED_MINUTE: u32 = 134_217_727;

const KINDS: [Kind; 7] = [
    Kind::DataSource,
    Kind::Service,
    Kind::Sli,
    Kind::Slo,
    Kind::AlertPolicy,
    Kind::AlertCondition,
    Kind::AlertNotificationTarget,
];

/// The kind's place among the seven.
pub(crate) fn kind_byte(kind: Kind) -> u8
    ensures { result ≡ kind_byte_def kind }
{
    match kind {
        Kind::DataSource => 0,
        Kind::Service => 1,
        Kind::Sli => 2,
        Kind::Slo => 3,
        Kind::AlertPolicy => 4,
        Kind::AlertCondition => 5,
        Kind::AlertNotificationTarget => 6,
    }
}

fn kind_of_byte(byte: u8) -> Option<Kind>
    ensures { result ≡ kind_of_byte byte }
{
    KINDS.get(byte as usize).copied()
}

impl<'a> Cursor<'a> {
    #[tactic(auto, unfolding(crate::specs::Records::kind))]
    pub(crate) fn kind(&mut self) -> Result<Kind, Unread>
        ensures { Reads kind_form result self.old.left.now self.new.left.now }
    {
        let byte = self.byte()?;
        kind_of_byte(byte).ok_or(Unread::NoRecord)
    }

    fn short_text(&mut self) -> Result<&'a [u8], Unread>
        ensures { ReadsAs (λ text. text.now) (text byte).read result self.old.left.now
            self.new.left.now }
    {
        let length = self.byte()?;
        self.bytes(length as usize)
    }

    #[tactic(auto, unfolding(crate::specs::Records::label))]
    pub(crate) fn label(&mut self) -> Result<Label, Unread>
        ensures { Reads label_form result self.old.left.now self.new.left.now }
    {
        read_label(self.short_text()?).ok_or(Unread::NoRecord)
    }

    #[tactic(auto, unfolding(crate::specs::Records::zone_name))]
    pub(crate) fn zone_name(&mut self) -> Result<ZoneName, Unread>
        ensures { Reads zone_name_form result self.old.left.now self.new.left.now }
    {
        read_zone_name(self.short_text()?).ok_or(Unread::NoRecord)
    }

    #[tactic(auto, unfolding(crate::specs::Records::text_within))]
    pub(crate) fn long_text(&mut self, alloc: Global, most: u32) -> Result<Bytes, Unread>
        ensures { Reads (text_within most) result self.old.left.now self.new.left.now }
    {
        let length = self.number_within(0, most)?;
        let text = self.bytes(length as usize)?;
        Ok(Bytes::from_vec(Vec::from_slice(alloc, text)?))
    }

    #[tactic(auto, unfolding(crate::specs::Records::amount))]
    fn amount(&mut self) -> Result<Amount, Unread>
        ensures { Reads amount_form result self.old.left.now self.new.left.now }
    {
        match self.byte()? {
            0 => Ok(Amount::Counts {
                part: self.number32()?,
                total: self.number32()?,
            }),
            1 => {
                let billionths = self.number64()?;
                if MAX_DECIMAL < billionths {
                    return Err(Unread::NoRecord);
                }
                Ok(Amount::Value(Decimal::of_billionths(billionths)))
            }
            2 => Ok(Amount::Withdrawn),
            _ => Err(Unread::NoRecord),
        }
    }

    #[tactic(auto, unfolding(crate::specs::Records::exclusion))]
    pub(crate) fn exclusion(&mut self) -> Result<Exclusion, Unread>
        ensures { Reads exclusion_form result self.old.left.now self.new.left.now }
    {
        Ok(Exclusion {
            id: self.label()?,
            slo: self.label()?,
            from: self.number_within(0, MAX_EXCLUDED_MINUTE)?,
            to: self.number_within(0, MAX_EXCLUDED_MINUTE)?,
        })
    }

    #[tactic(auto, unfolding(crate::specs::Records::rows))]
    pub(crate) fn rows(&mut self, alloc: Global) -> Result<Rows, Unread>
        ensures { Reads rows_form result self.old.left.now self.new.left.now }
    {
        let count = self.number16()?;
        if MAX_BATCH_ROWS < count as usize {
            return Err(Unread::NoRecord);
        }
        Ok(Rows::from_vec(self.each_row(alloc, count)?))
    }

    fn each_row(&mut self, alloc: Global, count: u16) -> Result<Vec<Row>, Unread>
        ensures { ReadsAs (λ rows. rows.items) (reading_of_each row_form count) result
            self.old.left.now self.new.left.now }
    {
        let mut rows = Vec::new(alloc);
        for _ in 0..count {
            self.add_row(&mut rows)?;
        }
        Ok(rows)
    }

    /// Reads a row, and adds it.
    #[tactic(auto, unfolding(crate::specs::Records::row))]
    fn add_row(&mut self, rows: &mut Vec<Row>) -> Result<(), Unread>
        ensures { ReadsAs (λ _. rows.new.items) (reading_behind row_form rows.old.items) result
            self.old.left.now self.new.left.now }
    {
        let sli = self.label()?;
        let source = self.label()?;
        let minute = self.number_within(0, MAX_MINUTE)?;
        let revision = self.number_within(1, MAX_REVISION)?;
        let amount = self.amount()?;
        rows.push(Row {
            sli,
            source,
            minute,
            revision,
            amount,
        })?;
        Ok(())
    }
}
