//! What a row says of its cell, in twelve bytes beside its form.
ghost use Rattle.std.specs.Prelude.{◌≡◌};
ghost use Rattle.sample_book.specs.Stored.{IsAmount, amount_of, form_of, numbers_of, stored_as};

use exact_fraction::Decimal;
use slice_method::Amount;
use slo_limits::WHOLE;

/// A row without its cell.
#[derive(Clone, Copy)]
pub(crate) struct Stored {
    pub(crate) revision: u32,
    pub(crate) amount: Amount,
}

/// Which amount a row has.
#[derive(Clone, Copy)]
pub(crate) enum Form {
    Events,
    Measured,
    Withdrawn,
}

/// The numbers of a row.
#[derive(Clone, Copy)]
pub(crate) struct Numbers {
    revision: u32,
    /// The part of the events, or whole units.
    first: u32,
    /// All events, or billionths: as one number a value would make each row four bytes longer.
    second: u32,
}

impl Stored {
    /// The row of a form with these numbers.
    pub(crate) fn of(form: Form, numbers: &Numbers) -> Stored
        requires { IsAmount (amount_of form numbers.now.first numbers.now.second) }
        ensures { result ≡ stored_as form numbers.now }
    {
        let amount = match form {
            Form::Events => Amount::Counts {
                part: numbers.first,
                total: numbers.second,
            },
            Form::Measured => Amount::Value(Decimal::of_billionths(
                u64::from(numbers.first) * WHOLE + u64::from(numbers.second),
            )),
            Form::Withdrawn => Amount::Withdrawn,
        };
        Stored {
            revision: numbers.revision,
            amount,
        }
    }

    /// Which amount the row has.
    pub(crate) fn form(&self) -> Form
        ensures { result ≡ form_of self.now.amount }
    {
        match self.amount {
            Amount::Counts { part: _, total: _ } => Form::Events,
            Amount::Value(_) => Form::Measured,
            Amount::Withdrawn => Form::Withdrawn,
        }
    }

    /// Its numbers.
    pub(crate) fn numbers(&self) -> Numbers
        ensures numbers { result ≡ numbers_of self.now }
        ensures amount { IsAmount self.now.amount }
    {
        let revision = self.revision;
        match &self.amount {
            Amount::Counts { part, total } => Numbers {
                revision,
                first: *part,
                second: *total,
            },
            Amount::Value(value) => Numbers {
                revision,
                first: (value.billionths() / WHOLE) as u32,
                second: (value.billionths() % WHOLE) as u32,
            },
            Amount::Withdrawn => Numbers {
                revision,
                first: 0,
                second: 0,
            },
        }
    }
}
