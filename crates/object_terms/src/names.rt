//! Lists of names.
ghost use Rattle.std.specs.Prelude.{◌≡◌, [], ◌∷◌, ◌++◌, OnOk, OnErr};
ghost use Rattle.object_terms.specs.Form.{is_among};

use exact_fraction::Label;
use std::alloc::{AllocError, Global};
use std::marker::Model;

/// Names of objects, in the order in which they stand.
#[derive(Debug, Drop)]
pub struct Names {
    items: Vec<Label>,
}

impl Model for Names {
    ghost use Rattle.std.specs.Prelude.{List, ℕ};

    ghost Value = { List (List ℕ) };

    ghost view = { λ names. names.items.items };
}

impl Names {
    /// No names.
    pub fn new(alloc: Global) -> Names
        ensures { result ≡ [] }
    {
        Names {
            items: Vec::new(alloc),
        }
    }

    /// Adds a name at the end.
    pub fn push(&mut self, name: Label) -> Result<(), AllocError>
        ensures pushed { OnOk result (self.new ≡ self.old ++ name ∷ []) }
        ensures kept { OnErr result (self.new ≡ self.old) }
    {
        match self.items.push(name) {
            Ok(()) => Ok(()),
            Err(_) => Err(AllocError),
        }
    }

    /// Whether it is one of the names.
    pub fn has(&self, name: &Label) -> bool
        ensures { result ≡ is_among self.now name.now }
    {
        has_name(self.as_slice(), name)
    }

    /// The names.
    pub fn as_slice(&self) -> &[Label]
        ensures { result.now ≡ self.now }
    {
        self.items.as_slice()
    }
}

/// Whether it is one of the names.
fn has_name(names: &[Label], name: &Label) -> bool
    ensures { result ≡ is_among names.now name.now }
{
    for other in names {
        if other.as_bytes() == name.as_bytes() {
            return true;
        }
    }
    false
}
