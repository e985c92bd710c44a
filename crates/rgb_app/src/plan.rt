//! Which numbering of a reordering is published as which version.
use command_words::Reordering;
use live_index::Plan;

/// Plans the numberings after the slabs of a reordering, in order.
#[derive(Clone, Copy)]
pub struct SlabPlan {
    pub options: Reordering,
}

impl Plan for SlabPlan {
    ghost use Rattle.rgb_app.specs.Planned.{planned_versions, is_planned};

    ghost versions = { planned_versions };

    ghost planned = { is_planned };
}
