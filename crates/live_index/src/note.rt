//! Notes, by which a reader is told of what was published.
use crate::plan::Plan;
use crate::view::View;
use rgb_base::Index;
use std::marker::Model;
use std::sync::Arc;

/// Tells a reader what was published. It is made by a publisher, and shares a view with it.
#[derive(Drop)]
pub struct Note<'a, K: Plan> {
    pub(crate) base: &'a Index,
    pub(crate) plan: K,
    pub(crate) view: Arc<View>,
}

impl<'a, K: Plan> Model for Note<'a, K> {
    ghost use Rattle.std.specs.Arc.{arc_value};
    ghost use Rattle.live_index.specs.declared.history.History.{History};
    ghost use Rattle.live_index.specs.Rule.{seen_in};

    ghost Value = { History K };

    ghost use Rattle.live_index.specs.Kept.{IsNote};

    ghost view = { λ n. seen_in n.base.now n.plan (arc_value n.view) };

    ghost invariant = { IsNote K.versions K.planned };
}

impl<'a, K: Plan> Note<'a, K> {
    ghost use Rattle.live_index.specs.History.{IsHistory};

    /// What each note keeps.
    pub fn is_sound(&self)
        ensures sound { IsHistory K.versions K.planned self.now }
    {
        let _ = &self.plan;
    }
}
