//! Objects.
ghost use Rattle.std.specs.Prelude.{◌≡◌, [], ◌∷◌, ◌++◌, OnOk, OnErr};

use crate::alert_condition::AlertCondition;
use crate::alert_notification_target::AlertNotificationTarget;
use crate::alert_policy::AlertPolicy;
use crate::data_source::DataSource;
use crate::free_part::FreePart;
use crate::kind::Kind;
use crate::service::Service;
use crate::sli::Sli;
use crate::slo::Slo;
use exact_fraction::{Label, Text};
use std::alloc::{AllocError, Global};
use std::marker::Model;

/// An object of OpenSLO. What stood inline in its document is an object of its own, and is named
/// here.
#[derive(Debug, Drop)]
pub struct Object {
    pub kind: Kind,
    /// The name in its metadata: 1 to 63 of lower-case letters, digits and `-`, with no `-` at an
    /// end.
    pub name: Label,
    pub display_name: Option<Text>,
    /// A map as it was written.
    pub labels: Option<FreePart>,
    /// A map as it was written.
    pub annotations: Option<FreePart>,
    /// What stands in `spec`: of the object's kind.
    pub body: Body,
}

/// The `spec` of an object.
#[derive(Debug, Drop)]
pub enum Body {
    DataSource(DataSource),
    Service(Service),
    Sli(Sli),
    Slo(Slo),
    AlertPolicy(AlertPolicy),
    AlertCondition(AlertCondition),
    AlertNotificationTarget(AlertNotificationTarget),
}

/// Objects in order.
#[derive(Debug, Drop)]
pub struct Objects {
    items: Vec<Object>,
}

impl Model for Objects {
    ghost use Rattle.std.specs.Prelude.{List};
    ghost use Rattle.std.specs.Coded.{coded_list};
    ghost use Rattle.object_terms.specs.declared.object.Object.{Object};
    ghost use Rattle.object_terms.specs.contracts.object.Object.{the_row};

    ghost Value = { List Object };

    ghost coded = { coded_list the_row.coded };

    ghost view = { λ objects. objects.items.items };
}

impl Objects {
    /// No objects.
    pub fn new(alloc: Global) -> Objects
        ensures { result ≡ [] }
    {
        Objects {
            items: Vec::new(alloc),
        }
    }

    /// Adds an object at the end.
    pub fn push(&mut self, object: Object) -> Result<(), AllocError>
        ensures pushed { OnOk result (self.new ≡ self.old ++ object ∷ []) }
        ensures kept { OnErr result (self.new ≡ self.old) }
    {
        match self.items.push(object) {
            Ok(()) => Ok(()),
            Err(_) => Err(AllocError),
        }
    }

    /// Moves the objects of another list to the end.
    pub fn append(&mut self, mut others: Objects) -> Result<(), AllocError>
        ensures appended { OnOk result (self.new ≡ self.old ++ others) }
        ensures kept { OnErr result (self.new ≡ self.old) }
    {
        self.items.append(&mut others.items)
    }

    /// The objects, as a list that can be taken apart.
    pub fn into_items(self) -> Vec<Object>
        ensures { result.items ≡ self }
    {
        self.items
    }

    /// The allocator of the list.
    pub fn allocator(&self) -> Global {
        *self.items.allocator()
    }

    /// The objects.
    pub fn as_slice(&self) -> &[Object]
        ensures { result.now ≡ self.now }
    {
        self.items.as_slice()
    }
}
