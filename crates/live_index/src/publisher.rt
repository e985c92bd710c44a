//! The publisher of a live index.
ghost use Rattle.std.specs.Prelude.{◌≡◌, ◌+◌, ◌-◌, ◌^◌, ◌<◌, length, IfOk, OnOk, OnErr};

use crate::note::Note;
use crate::plan::Plan;
use crate::rule::LiveWriter;
use crate::view::View;
use crate::writing::put_out;
use postings_rewrite::BlockStore;
use rgb_base::{Index, OutOfMemory, Permutation};
use std::alloc::Global;
use std::marker::Model;
use std::sync::{Arc, Wait};
use std::thread::Threads;

/// Publishes the versions of a live index. Contracts see it as the history of what was published. It
/// isn't dropped by itself: `finish` ends it.
pub struct Publisher<'a, K: Plan> {
    pub(crate) base: &'a Index,
    pub(crate) plan: K,
    /// How many threads renumber the base.
    pub(crate) workers: u32,
    pub(crate) writer: LiveWriter<K>,
    /// The view that was published last.
    pub(crate) view: Arc<View>,
}

impl<'a, K: Plan> Model for Publisher<'a, K> {
    ghost use Rattle.std.specs.Arc.{arc_value};
    ghost use Rattle.live_index.specs.declared.history.History.{History};
    ghost use Rattle.live_index.specs.Rule.{seen_in};

    ghost Value = { History K };

    ghost use Rattle.live_index.specs.Kept.{IsPublisher};

    ghost view = { λ p. seen_in p.base.now p.plan (arc_value p.view) };

    ghost invariant = { IsPublisher K.versions K.planned };
}

impl<'a, K: Plan> Publisher<'a, K> {
    ghost use Rattle.live_index.specs.History.{IsHistory, IsPlanned, IsLast, with_next};

    /// What each publisher keeps.
    pub fn is_sound(&self)
        ensures sound { IsHistory K.versions K.planned self.now }
    {
        let _ = &self.plan;
    }

    /// Renumbers the base by this numbering, and publishes that as the next version. The note tells all
    /// that was published. It waits for readers that are still at the version before the last one.
    pub fn publish<R: Threads + Wait + Sync>(
        &mut self,
        rt: &R,
        alloc: Global,
        by: Permutation,
    ) -> Result<Note<'a, K>, OutOfMemory>
        requires len { length by ≡ length self.old.base.documents }
        requires planned { IsPlanned K.versions K.planned
            self.old.base self.old.plan self.old.length by }
        requires room { self.old.length < 2 ^ 32 - 1 }
        ensures ok { OnOk result (self.new ≡ with_next self.old) }
        ensures note { IfOk result (λ note. note ≡ with_next self.old) }
        ensures memory { OnErr result (self.new ≡ self.old) }
    {
        // That it is one: for the proof.
        by.is_sound();
        let version = self.version() + 1;
        let store = BlockStore::renumbered(rt, alloc, self.base, &by, self.workers)?;
        let numbering = by;
        let view = Arc::new(
            alloc,
            View {
                version,
                numbering,
                store,
            },
        )?;
        let note = Note {
            base: self.base,
            plan: self.plan,
            view: Arc::try_clone(&view)?,
        };
        put_out(rt, self.base, self.plan, &mut self.writer, &view)?;
        self.view = view;
        Ok(note)
    }

    /// The last version that was published.
    pub fn version(&self) -> u32
        ensures last { IsLast self.now result }
    {
        self.view.version
    }

    /// A note of all that was published.
    pub fn note(&mut self) -> Result<Note<'a, K>, OutOfMemory>
        ensures ok { IfOk result (λ note. note ≡ self.old) }
        ensures same { self.new ≡ self.old }
    {
        let view = Arc::try_clone(&self.view)?;
        Ok(Note {
            base: self.base,
            plan: self.plan,
            view,
        })
    }

    /// Ends the publisher, and gives the last version that was published. Readers stay, and answer as
    /// before. It waits for those that are in a copy.
    pub fn finish<R: Wait>(self, rt: &R) -> u32
        ensures last { IsLast self.entry result }
    {
        let Publisher {
            base: _,
            plan: _,
            workers: _,
            writer,
            view,
        } = self;
        drop(writer.take(rt));
        view.version
    }
}
