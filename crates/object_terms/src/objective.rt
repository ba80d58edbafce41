//! The objectives of SLOs.
ghost use Rattle.std.specs.Prelude.{◌≡◌, ◌<◌, ◌≤◌, [], ◌∷◌, ◌++◌, length, OnOk, OnErr};
ghost use Rattle.slo_limits.specs.declared.TheConstants.{MAX_OBJECTIVES};

use crate::ranges::{SliceTarget, SliceWidth, Target};
use exact_fraction::{Decimal, Op, Text};
use std::alloc::{AllocError, Global};
use std::marker::Model;

/// One objective of an SLO.
#[derive(Debug, Drop)]
pub struct Objective {
    pub display_name: Option<Text>,
    pub op: Option<Op>,
    pub value: Option<Decimal>,
    /// Of `target`, or a hundredth of `targetPercent`.
    pub target: Target,
    /// The ratio from which on a slice is good.
    pub time_slice_target: Option<SliceTarget>,
    /// The width of a slice.
    pub time_slice_window: Option<SliceWidth>,
}

/// The objectives of an SLO, in their order: at most five.
#[derive(Debug, Drop)]
pub struct Objectives {
    items: Vec<Objective>,
}

impl Model for Objectives {
    ghost use Rattle.std.specs.Prelude.{List, ◌≤◌, length};
    ghost use Rattle.std.specs.Coded.{coded_list};
    ghost use Rattle.object_terms.specs.declared.objective.Objective.{Objective};
    ghost use Rattle.object_terms.specs.contracts.objective.Objective.{the_row};
    ghost use Rattle.slo_limits.specs.declared.TheConstants.{MAX_OBJECTIVES};

    ghost Value = { List Objective };

    ghost coded = { coded_list the_row.coded };

    ghost view = { λ objectives. objectives.items.items };

    ghost invariant = { λ objectives. length objectives.items.items ≤ MAX_OBJECTIVES };
}

impl Objectives {
    /// No objectives.
    pub fn new(alloc: Global) -> Objectives
        ensures { result ≡ [] }
    {
        Objectives {
            items: Vec::new(alloc),
        }
    }

    /// Adds an objective at the end.
    pub fn push(&mut self, objective: Objective) -> Result<(), AllocError>
        requires { length self.old < MAX_OBJECTIVES }
        ensures pushed { OnOk result (self.new ≡ self.old ++ objective ∷ []) }
        ensures kept { OnErr result (self.new ≡ self.old) }
    {
        match self.items.push(objective) {
            Ok(()) => Ok(()),
            Err(_) => Err(AllocError),
        }
    }

    /// How many objectives there are: at most five.
    pub fn count(&self) -> usize
        ensures all { result ≡ length self.now }
        ensures few { length self.now ≤ MAX_OBJECTIVES }
    {
        self.items.len()
    }

    /// The objectives.
    pub fn as_slice(&self) -> &[Objective]
        ensures { result.now ≡ self.now }
    {
        self.items.as_slice()
    }
}
