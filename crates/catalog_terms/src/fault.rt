//! Why a catalog isn't changed.
ghost use Rattle.std.specs.Prelude.{◌≡◌};

use exact_fraction::Label;
use object_terms::Kind;
use std::alloc::{AllocError, AllocFailed};

/// Why objects aren't taken into a catalog, in the order in which it is tried.
#[derive(Debug, Drop)]
pub enum CatalogFault {
    /// An AlertPolicy with the name of a built-in one.
    Reserved {
        name: Label,
    },
    /// The objects have this kind and name twice, with different content.
    DuplicateInText {
        kind: Kind,
        name: Label,
    },
    /// The reference of the first kind and name to the second names no member of the result.
    Unresolved {
        from_kind: Kind,
        from_name: Label,
        kind: Kind,
        name: Label,
    },
    /// An objective, counted from 0, over an indicator with a threshold, has no `op` or no `value`.
    NeedsOp {
        slo: Label,
        objective: u32,
    },
    /// The result would pass a limit.
    Limit(CatalogLimit),
}

/// What of a catalog is bounded, in the order in which it is tried.
#[derive(Clone, Copy, Debug, PartialEq, Eq)]
pub enum CatalogLimit {
    /// The count of objects.
    Objects,
    /// The bytes of all objects in canonical writing.
    Catalog,
    /// The count of SLIs.
    Slis,
    /// The count of SLOs.
    Slos,
    /// The count of bindings.
    Bindings,
}

/// Why `define` gives no catalog.
#[derive(Debug, Drop)]
pub enum DefineError {
    /// The first fault.
    Fault(CatalogFault),
    /// Memory ran out.
    NoMemory,
}

/// Why an object isn't taken out of a catalog, in the order in which it is tried.
#[derive(Debug, Drop)]
pub enum RemoveFault {
    /// There is no such member.
    NotFound,
    /// This member, the first in the catalog's order, refers to it.
    InUse { by_kind: Kind, by_name: Label },
}

/// Why `remove` gives no catalog.
#[derive(Debug, Drop)]
pub enum RemoveError {
    /// The first fault.
    Fault(RemoveFault),
    /// Memory ran out.
    NoMemory,
}

impl From<AllocError> for DefineError {
    ghost use Rattle.catalog_terms.specs.declared.fault.DefineError.TheVariants.{NoMemory};

    ghost from_gives = { λ _ e. e ≡ NoMemory };

    fn from(_error: AllocError) -> DefineError {
        DefineError::NoMemory
    }
}

impl<T: Drop> From<AllocFailed<T>> for DefineError {
    ghost use Rattle.catalog_terms.specs.declared.fault.DefineError.TheVariants.{NoMemory};

    ghost from_gives = { λ _ e. e ≡ NoMemory };

    fn from(_error: AllocFailed<T>) -> DefineError {
        DefineError::NoMemory
    }
}

impl From<AllocError> for RemoveError {
    ghost use Rattle.catalog_terms.specs.declared.fault.RemoveError.TheVariants.{NoMemory};

    ghost from_gives = { λ _ e. e ≡ NoMemory };

    fn from(_error: AllocError) -> RemoveError {
        RemoveError::NoMemory
    }
}

impl<T: Drop> From<AllocFailed<T>> for RemoveError {
    ghost use Rattle.catalog_terms.specs.declared.fault.RemoveError.TheVariants.{NoMemory};

    ghost from_gives = { λ _ e. e ≡ NoMemory };

    fn from(_error: AllocFailed<T>) -> RemoveError {
        RemoveError::NoMemory
    }
}
