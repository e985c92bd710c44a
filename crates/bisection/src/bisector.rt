//! The recursion slab by slab.
ghost use Rattle.std.specs.Prelude.{◌≡◌, ◌+◌, ◌<◌, IfOk, IfSome, IfNone, OnErr};
ghost use Rattle.bisection.specs.Progress.{AreOptions, IsProgress, slabs_of};

use crate::cell::{Part, Slab};
use crate::laws::laws_of_recursion;
use crate::next::{level_after, next_slab, numbering_of, slabs};
use crate::options::Options;
use cell_claims::{KeptRound, TraceList};
use fixed_log::LogTable;
use forward_index::Forward;
use rgb_base::{OutOfMemory, Pace, Permutation};
use std::alloc::{AllocError, Global};
use std::marker::Model;
use std::thread::Threads;

/// The recursion over the documents of a forward index, made slab by slab. Contracts see how far it
/// has come.
#[derive(Drop)]
pub struct Bisector<'a> {
    forward: &'a Forward,
    options: Options,
    /// Up to more than the number of documents.
    logs: LogTable,
    done: u32,
    numbering: Permutation,
    /// The cells in their order, once there was a slab.
    parts: Vec<Part>,
    trace: Vec<KeptRound>,
}

impl<'a> Model for Bisector<'a> {
    ghost use Rattle.bisection.specs.Progress.{Progress};

    ghost Value = { Progress };

    ghost use Rattle.bisection.specs.Kept.{progress_in, IsBisector};

    ghost view = { progress_in };

    ghost invariant = { IsBisector };
}

impl<'a> Bisector<'a> {
    /// The recursion before its first slab: the numbering is the start order.
    pub fn prepare(
        alloc: Global,
        forward: &'a Forward,
        options: Options,
    ) -> Result<Bisector<'a>, OutOfMemory>
        requires options { AreOptions options }
        ensures ok { IfOk result (λ progress. (progress.forward ≡ forward.now)
            × (progress.options ≡ options) × (progress.done ≡ 0)) }
        ensures sound { IfOk result IsProgress }
    {
        forward.is_sound();
        let logs = LogTable::new(alloc, forward.docs() + 1)?;
        let documents = documents_of(alloc, forward)?;
        let numbering = numbering_of(alloc, documents)?;
        Ok(Bisector {
            forward,
            options,
            logs,
            done: 0,
            numbering,
            parts: Vec::new(alloc),
            trace: Vec::new(alloc),
        })
    }

    /// What each recursion keeps.
    pub fn is_sound(&self)
        ensures sound { IsProgress self.now }
    {
        let _ = &self.done;
    }

    /// Makes one slab more, and gives how many are done then, or `None` where all were done.
    pub fn advance<R: Threads + Sync, P: Pace>(
        &mut self,
        rt: &R,
        alloc: Global,
        pace: &P,
    ) -> Result<Option<u32>, OutOfMemory>
        ensures some { IfOk result (λ answer. IfSome answer (λ slabs.
            (self.old.done < slabs_of self.old.options) × (slabs ≡ self.old.done + 1)
            × (self.new.done ≡ slabs))) }
        ensures none { IfOk result (λ answer. IfNone answer
            ((self.old.done ≡ slabs_of self.old.options) × (self.new ≡ self.old))) }
        ensures memory { OnErr result (self.new ≡ self.old) }
        ensures forward { self.new.forward ≡ self.old.forward }
        ensures options { self.new.options ≡ self.old.options }
        ensures sound { IsProgress self.new }
    {
        laws_of_recursion();
        if self.done == slabs(&self.options) {
            return Ok(None);
        }
        let slab = Slab {
            logs: &self.logs,
            options: self.options,
            last: level_after(&self.options, self.done + 1),
        };
        let next = next_slab(
            rt,
            alloc,
            pace,
            self.forward,
            &slab,
            self.done,
            &self.numbering,
            &self.parts,
            &self.trace,
        )?;
        self.numbering = next.numbering;
        self.parts = next.parts;
        self.trace = next.trace;
        self.done += 1;
        Ok(Some(self.done))
    }

    /// How many slabs are done.
    pub fn done(&self) -> u32
        ensures same { result ≡ self.now.done }
    {
        self.done
    }

    /// The numbering by the levels that are done.
    pub fn numbering(&self) -> &Permutation
        ensures same { result.now ≡ self.now.numbering }
    {
        &self.numbering
    }

    /// The kept rounds of the levels that are done.
    pub fn trace(&self) -> &[KeptRound]
        ensures same { result.now ≡ self.now.trace }
    {
        &self.trace
    }

    /// Gives up the numbering and the kept rounds.
    pub(crate) fn into_parts(self) -> (Permutation, TraceList)
        ensures numbering { result.0 ≡ self.entry.numbering }
        ensures trace { result.1 ≡ self.entry.trace }
    {
        (self.numbering, TraceList::of(self.trace))
    }
}

/// The document at each place.
fn documents_of(alloc: Global, forward: &Forward) -> Result<Vec<u32>, AllocError>
    ensures { IfOk result (λ documents. documents.items ≡ forward.now.documents) }
{
    forward.is_sound();
    let mut documents = Vec::with_capacity(alloc, forward.docs() as usize)?;
    for place in 0..forward.docs() {
        documents.push(forward.document_at(place))?;
    }
    Ok(documents)
}
