//! The readers of a live index.
ghost use Rattle.std.specs.Prelude.{◌≡◌, max, IfOk};
ghost use Rattle.bool_query.specs.View.{tree_of};

use crate::answer::{Answer, answer_from};
use crate::entering::newer_view;
use crate::note::Note;
use crate::plan::Plan;
use crate::rule::LivePlace;
use crate::view::View;
use bool_query::{Dictionary, Query};
use rgb_base::{Index, OutOfMemory};
use std::alloc::Global;
use std::marker::Model;
use std::sync::Arc;

/// Answers queries at the newest version that it has seen. Contracts see it as the history that it has
/// seen. It may go to another thread.
#[derive(Drop)]
pub struct LiveReader<'a, K: Plan> {
    pub(crate) base: &'a Index,
    pub(crate) plan: K,
    /// The terms of the base, which all readers share.
    pub(crate) dictionary: Arc<Dictionary>,
    /// Its own way into the copies, where it got one.
    pub(crate) place: Option<LivePlace<K>>,
    /// The view of the last version that it has seen.
    pub(crate) view: Arc<View>,
}

impl<'a, K: Plan> Model for LiveReader<'a, K> {
    ghost use Rattle.std.specs.Arc.{arc_value};
    ghost use Rattle.live_index.specs.declared.history.History.{History};
    ghost use Rattle.live_index.specs.Rule.{seen_in};

    ghost Value = { History K };

    ghost use Rattle.live_index.specs.Kept.{IsReader};

    ghost view = { λ r. seen_in r.base.now r.plan (arc_value r.view) };

    ghost invariant = { IsReader K.versions K.planned };
}

impl<'a, K: Plan> LiveReader<'a, K> {
    ghost use Rattle.live_index.specs.History.{IsHistory, IsOfSame, Continues, IsLast};
    ghost use Rattle.live_index.specs.Answers.{IsAnswerAt};

    /// What each reader keeps.
    pub fn is_sound(&self)
        ensures sound { IsHistory K.versions K.planned self.now }
    {
        let _ = &self.plan;
    }

    /// The reader has seen what the note tells from now on, or more.
    pub fn learn(&mut self, note: Note<'a, K>)
        requires same { IsOfSame self.old note }
        ensures same { IsOfSame self.old self.new }
        ensures longer { self.new.length ≡ max self.old.length note.entry.length }
    {
        let Note {
            base: _,
            plan: _,
            view,
        } = note;
        if self.view.version < view.version {
            self.view = view;
        }
    }

    /// The documents that the query means, at the last version that the reader has then seen: that of
    /// the view which it finds in the copies and shares, where that is newer than its own. Else it is the
    /// last that it had seen.
    pub fn ask(&mut self, alloc: Global, query: &Query) -> Result<Answer, OutOfMemory>
        ensures ok { IfOk result
            (IsAnswerAt K.versions K.planned self.new (tree_of query.now)) }
        ensures continues { Continues self.old self.new }
    {
        self.look();
        answer_from(alloc, self.base, &self.dictionary, &self.view, query)
    }

    /// The last version that the reader has seen.
    pub fn front(&self) -> u32
        ensures last { IsLast self.now result }
    {
        self.view.version
    }

    /// Goes into the copies, and keeps the view there where it is newer than its own.
    fn look(&mut self)
        ensures continues { Continues self.old self.new }
    {
        let Some(place) = self.place.take() else {
            return;
        };
        let (place, newer) = newer_view(self.base, self.plan, place, self.view.version);
        self.place = Some(place);
        if let Some(view) = newer {
            self.view = view;
        }
    }
}
