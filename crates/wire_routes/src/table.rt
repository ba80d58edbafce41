//! The table of the routes.
ghost use Rattle.std.specs.Prelude.{◌≡◌, IfOk};
ghost use Rattle.wire_routes.specs.Table.{table};

use crate::place::Route;
use matchit::{InsertError, Router};
use std::alloc::Global;

/// The routes, each by its path.
pub(crate) fn make_router(alloc: Global) -> Result<Router<Route>, InsertError>
    ensures { IfOk result (λ r. r ≡ table) }
{
    let mut router = Router::new(alloc);
    router.insert("/objects", Route::Objects)?;
    router.insert("/objects/{kind}/{name}", Route::Object)?;
    router.insert("/zones/{*name}", Route::Zone)?;
    router.insert("/samples", Route::Samples)?;
    router.insert("/exclusions/{id}", Route::Exclusion)?;
    router.insert("/tick", Route::Tick)?;
    router.insert("/notices", Route::Notices)?;
    router.insert("/notices/{n}/take", Route::Take)?;
    router.insert("/upgrade", Route::Upgrade)?;
    router.insert("/budgets/{slo}", Route::Budgets)?;
    router.insert("/burns/{slo}/{objective}", Route::Burns)?;
    router.insert("/alerts/{slo}/{objective}/{policy}", Route::Alerts)?;
    router.insert("/entries", Route::Entries)?;
    router.insert("/samples/{sli}/{source}/{minute}", Route::Row)?;
    router.insert("/exclusions", Route::Exclusions)?;
    router.insert("/zones", Route::Zones)?;
    router.insert("/status", Route::Status)?;
    router.insert("/sums/{slo}/{objective}", Route::Sums)?;
    router.insert("/windows/{slo}", Route::Windows)?;
    Ok(router)
}
