//! Changes that become notices.
ghost use Rattle.std.specs.Prelude.{◌≡◌, ◌≤◌, ◌+◌, ◌<◌, ◌^◌, ◌++◌, ◌∷◌, [], true, length};
ghost use Rattle.office_history.specs.Notices.{notice_of};
ghost use Rattle.notice_changes.specs.Works.{new_notices};

use burn_core::State;
use catalog_terms::Binding;
use notice_box::{Notice, NoticeBox};

/// Each change becomes a notice, numbered on.
pub(crate) fn tell(notices: &mut NoticeBox, at: u32, told: &[(Binding, State)])
    requires few { length notices.old.made + length told.now < 2 ^ 32 }
    requires room { length told.now ≤ notices.old.spare }
    ensures { notices.new.made ≡ notices.old.made
        ++ new_notices at (length notices.old.made + 1) told.now }
{
    for change in told {
        push(notices, at, change);
    }
}

/// The change becomes the next notice.
fn push(notices: &mut NoticeBox, at: u32, change: &(Binding, State))
    requires few { length notices.old.made + 1 < 2 ^ 32 }
    requires room { 0 < notices.old.spare }
    ensures made { notices.new.made ≡ notices.old.made
        ++ (notice_of (length notices.old.made + 1) (at, change.now), true) ∷ [] }
    ensures spare { notices.old.spare ≤ notices.new.spare + 1 }
{
    let number = notices.count() + 1;
    notices.push(Notice {
        number,
        at,
        slo: change.0.slo,
        objective: change.0.objective,
        policy: change.0.policy,
        state: change.1,
    });
}
