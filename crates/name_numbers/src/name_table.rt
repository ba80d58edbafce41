//! Names, numbered in the order in which they came.
ghost use Rattle.std.specs.Prelude.{◌≡◌, ◌<◌, List, ℕ, [], length, IfOk, IfSome, OnErr, OnOk, Some};
ghost use Rattle.std.specs.Prelude.{take, true};
ghost use Rattle.std.specs.List.{IsDistinct, position};
ghost use Rattle.std.specs.Str.{bytes_eq};
ghost use Rattle.name_numbers.specs.Names.{IsGrown, IsNumber, name_at, named_with};

use exact_fraction::Label;
use indexmap::IndexSet;
use std::alloc::{AllocError, Global};
use std::marker::Model;

/// A number of a name is a `u32`.
const MOST_NAMES: usize = 4_294_967_296;

/// Names by their numbers, which count from 0 in the order in which the names came.
#[derive(Drop)]
pub struct NameTable {
    set: IndexSet<Label>,
    /// The number that was used last, and the one that came after each number last time. Names come
    /// in runs and in turns, so these are tried before a look-up; nothing rests on them.
    latest: u32,
    followers: Vec<u32>,
}

impl Model for NameTable {
    ghost use Rattle.std.specs.Prelude.{List, ℕ};
    ghost use Rattle.name_numbers.specs.Names.{AreApart};

    ghost Value = { List (List ℕ) };

    ghost view = { λ a. a.set.keys };

    ghost invariant = { λ a. AreApart a.set.keys };
}

impl NameTable {
    /// A table of no names.
    pub fn new(alloc: Global) -> NameTable
        ensures { result ≡ [] }
    {
        NameTable {
            set: IndexSet::new(alloc),
            latest: 0,
            followers: Vec::new(alloc),
        }
    }

    /// How many names there are.
    pub fn len(&self) -> usize
        ensures { result ≡ length self.now }
    {
        self.set.len()
    }

    /// Whether a name has this number.
    fn is_at(&self, number: u32, name: &Label) -> bool
        ensures number { result ≡ true → position (bytes_eq name.now) self.now ≡ Some number }
        ensures distinct { IsDistinct bytes_eq self.now }
    {
        let set = &self.set;
        match set.get_index(number as usize) {
            Some(there) => *there == *name,
            None => false,
        }
    }

    /// The number that came after the latest one last time.
    fn follower(&self) -> u32 {
        match self.followers.get(self.latest as usize) {
            Some(number) => *number,
            None => 0,
        }
    }

    /// The number of a name, where it has one.
    pub fn find(&self, name: &Label) -> Option<u32>
        ensures number { result ≡ position (bytes_eq name.now) self.now }
        ensures distinct { IsDistinct bytes_eq self.now }
    {
        let guess = self.follower();
        if self.is_at(guess, name) {
            return Some(guess);
        }
        if self.is_at(self.latest, name) {
            return Some(self.latest);
        }
        let number = self.set.get_index_of(name)?;
        Some(number as u32)
    }

    /// The number of a name, or the one that it would get; None where no number is left.
    pub fn number_for(&self, name: &Label) -> Option<u32>
        ensures { IfSome result (λ number.
            IsNumber (position (bytes_eq name.now) self.now) (length self.now) number) }
    {
        match self.find(name) {
            Some(number) => Some(number),
            None => {
                let count = self.set.len();
                if count >= MOST_NAMES {
                    return None;
                }
                Some(count as u32)
            }
        }
    }

    /// Notes that a number was used, for the next look-ups.
    fn note(&mut self, number: u32)
        ensures { self.new ≡ self.old }
    {
        if let Some(follower) = self.followers.get_mut(self.latest as usize) {
            *follower = number;
        }
        self.latest = number;
    }

    /// The name of a number.
    pub fn name(&self, number: u32) -> Label
        requires { number < length self.now }
        ensures { result ≡ name_at self.now number }
    {
        *self.set.get_index(number as usize).unwrap()
    }

    /// The number of a name, which gets one where it has none.
    ///
    /// # Errors
    ///
    /// Where memory runs out, or numbers do. The table is as before then.
    pub fn number(&mut self, name: &Label) -> Result<u32, AllocError>
        ensures ok { OnOk result (self.new ≡
            named_with (position (bytes_eq name.now) self.old) self.old name.now) }
        ensures number { IfOk result
            (λ number. position (bytes_eq name.now) self.new ≡ Some number) }
        ensures err { OnErr result (self.new ≡ self.old) }
        ensures grown { IsGrown self.old self.new }
        ensures distinct { IsDistinct bytes_eq self.new }
    {
        if let Some(number) = self.find(name) {
            self.note(number);
            return Ok(number);
        }
        let count = self.set.len();
        if count >= MOST_NAMES || make_follower(&mut self.followers, count).is_err() {
            return Err(AllocError);
        }
        match self.set.insert_full(*name) {
            Ok(_) => {
                self.note(count as u32);
                Ok(count as u32)
            }
            Err(_) => Err(AllocError),
        }
    }

    /// Gives a name a number, where it has none.
    ///
    /// # Errors
    ///
    /// Where memory runs out, or numbers do. The table is as before then.
    pub fn add(&mut self, name: &Label) -> Result<(), AllocError>
        ensures ok { OnOk result (self.new ≡
            named_with (position (bytes_eq name.now) self.old) self.old name.now) }
        ensures err { OnErr result (self.new ≡ self.old) }
    {
        match self.number(name) {
            Ok(_) => Ok(()),
            Err(refused) => Err(refused),
        }
    }

    /// Forgets the names from a number on.
    pub fn truncate(&mut self, count: usize)
        ensures { self.new ≡ take count self.old }
    {
        if self.set.len() <= count {
            return;
        }
        self.set.truncate(count);
    }
}

/// A place for what comes after so many numbers.
fn make_follower(followers: &mut Vec<u32>, count: usize) -> Result<(), AllocError> {
    if followers.len() <= count {
        followers.extend_from_slice(&[0u32])?;
    }
    Ok(())
}
