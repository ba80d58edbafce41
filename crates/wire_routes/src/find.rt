//! The routes.
ghost use Rattle.wire_routes.specs.Places.{Finds};
ghost use Rattle.std.specs.Prelude.{◌≡◌};
ghost use Rattle.wire_routes.specs.Table.{table};

use crate::place::{Place, Route};
use crate::readers::place_by;
use crate::table::make_router;
use matchit::Router;
use std::alloc::{AllocError, Global};

/// The routes of the office, made once.
#[derive(Drop)]
pub struct Routes {
    router: Router<Route>,
    ghost table: { router ≡ table },
}

impl Routes {
    /// The routes.
    ///
    /// # Errors
    ///
    /// `AllocError` where memory runs out.
    pub fn new(alloc: Global) -> Result<Routes, AllocError> {
        match make_router(alloc) {
            Ok(router) => Ok(Routes { router }),
            Err(_) => Err(AllocError),
        }
    }

    /// The place that a path names.
    pub(crate) fn find(&self, path: &str) -> Option<Place>
        ensures { Finds path.now result }
    {
        match self.router.at(path) {
            Ok(found) => place_by(*found.value, path.as_bytes()),
            Err(_) => None,
        }
    }
}
