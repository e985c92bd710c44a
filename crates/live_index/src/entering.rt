//! How a reader comes to a newer view.
ghost use Rattle.std.specs.Prelude.{◌<◌, IfSome};
ghost use Rattle.std.specs.Arc.{arc_value};
ghost use Rattle.left_right.specs.Sides.{view};
ghost use Rattle.live_index.specs.Rule.{IsViewOf, KnowsOf};

use crate::plan::Plan;
use crate::rule::{Enter, LivePlace};
use crate::view::View;
use rgb_base::Index;
use std::sync::Arc;

/// Goes into the copies, and shares the view there where it is newer than this version. There is none
/// where the reader isn't let in, or the view has too many owners.
pub(crate) fn newer_view<K: Plan>(
    base: &Index,
    plan: K,
    place: LivePlace<K>,
    version: u32,
) -> (LivePlace<K>, Option<Arc<View>>)
    requires knows { KnowsOf base.now plan (view place.place) }
    ensures knows { KnowsOf base.now plan (view result.0.place) }
    ensures newer { IfSome result.1
        (λ newer. IsViewOf K.versions K.planned base.now plan (arc_value newer)
        × (version < (arc_value newer).version)) }
{
    match place.enter_as::<Enter>() {
        Ok(reading) => {
            let found = &reading.get().view;
            let newer = if version < found.version {
                Arc::try_clone(found).ok()
            } else {
                None
            };
            (reading.leave(), newer)
        }
        Err(place) => (place, None),
    }
}
