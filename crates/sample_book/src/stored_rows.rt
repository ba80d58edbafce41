//! What rows say of their cells, in the order of the cells: twelve bytes for a row that counts
//! events, and where rows of another form stand a byte more for each up to the last of these.
ghost use Rattle.std.specs.Prelude.{◌≡◌, ◌+◌, ◌<◌, ◌≤◌, ◌++◌, ◌∷◌, [], Some, OnOk, length, max};
ghost use Rattle.std.specs.Prelude.{slice_get, slice_set, vec_capacity};
ghost use Rattle.sample_book.specs.Stored.{IsSetAt, form_at};

use crate::stored::{Form, Numbers, Stored};
use std::alloc::{AllocError, Global};
use std::marker::Model;

/// What is stored of rows. Contracts see the list, and for how many rows there is room.
#[derive(Drop)]
pub(crate) struct StoredRows {
    numbers: Vec<Numbers>,
    /// Rows behind the last form count events. There is room for a form of each row, which is
    /// touched where one is put there.
    forms: Vec<Form>,
}

impl Model for StoredRows {
    ghost use Rattle.std.specs.Prelude.{min, vec_capacity};
    ghost use Rattle.sample_book.specs.Stored.{AreStored, KeptRows, form_at, rows_of};

    ghost Value = { KeptRows };

    ghost view = { λ a. record {
      rows = rows_of a.numbers.items (form_at a.forms.items);
      capacity = min (vec_capacity a.numbers) (vec_capacity a.forms);
    } };

    ghost invariant = { λ a. AreStored a.numbers.items a.forms.items (vec_capacity a.forms) };
}

impl StoredRows {
    /// No rows.
    pub(crate) fn new(alloc: Global) -> StoredRows
        ensures { result.rows ≡ [] }
    {
        StoredRows {
            numbers: Vec::new(alloc),
            forms: Vec::new(alloc),
        }
    }

    /// How many rows there are.
    pub(crate) fn len(&self) -> usize
        ensures { result ≡ length self.now.rows }
    {
        self.numbers.len()
    }

    /// The row at a place.
    pub(crate) fn at(&self, place: usize) -> Stored
        requires { place < length self.now.rows }
        ensures { slice_get self.now.rows place ≡ Some result }
    {
        let form = form_at(&self.forms, place);
        Stored::of(form, &self.numbers[place])
    }

    /// Puts a row in the place of another, with no memory.
    pub(crate) fn set(&mut self, place: usize, stored: Stored)
        requires { place < length self.old.rows }
        ensures rows { self.new.rows ≡ slice_set self.old.rows place stored }
        ensures capacity { self.old.capacity ≤ self.new.capacity }
    {
        let numbers = stored.numbers();
        set_form(&mut self.forms, place, stored.form());
        self.numbers[place] = numbers;
    }

    /// Puts a row behind the others where there is room, with no memory.
    pub(crate) fn push(&mut self, stored: Stored)
        requires { length self.old.rows < self.old.capacity }
        ensures rows { self.new.rows ≡ self.old.rows ++ stored ∷ [] }
        ensures capacity { self.old.capacity ≤ self.new.capacity }
    {
        let numbers = stored.numbers();
        let place = self.numbers.len();
        set_form(&mut self.forms, place, stored.form());
        self.numbers.push_reserved(numbers);
    }

    /// Makes room for so many rows more.
    pub(crate) fn reserve(&mut self, more: usize) -> Result<(), AllocError>
        ensures rows { self.new.rows ≡ self.old.rows }
        ensures capacity { self.old.capacity ≤ self.new.capacity }
        ensures ok { OnOk result (length self.old.rows + more ≤ self.new.capacity) }
    {
        self.numbers.reserve(more)?;
        self.forms
            .reserve(self.numbers.len() - self.forms.len() + more)
    }
}

/// The form of the row at a place.
fn form_at(forms: &[Form], place: usize) -> Form
    ensures { result ≡ form_at forms.now place }
{
    match forms.get(place) {
        Some(form) => *form,
        None => Form::Events,
    }
}

/// Gives the row at a place its form.
fn set_form(forms: &mut Vec<Form>, place: usize, form: Form)
    requires { place < vec_capacity forms.old }
    ensures set { IsSetAt (form_at forms.old.items) (form_at forms.new.items) place form }
    ensures few { length forms.new.items ≤ max (length forms.old.items) (place + 1) }
    ensures capacity { vec_capacity forms.old ≤ vec_capacity forms.new }
{
    if place < forms.len() {
        forms[place] = form;
        return;
    }
    match form {
        Form::Events => {}
        Form::Measured | Form::Withdrawn => add_form(forms, place, form),
    }
}

/// Adds the form of a row behind those that have one.
fn add_form(forms: &mut Vec<Form>, place: usize, form: Form)
    requires behind { length forms.old.items ≤ place }
    requires room { place < vec_capacity forms.old }
    ensures set { IsSetAt (form_at forms.old.items) (form_at forms.new.items) place form }
    ensures few { length forms.new.items ≤ place + 1 }
    ensures capacity { vec_capacity forms.old ≤ vec_capacity forms.new }
{
    forms.resize(place, Form::Events).unwrap();
    forms.push_reserved(form);
}
