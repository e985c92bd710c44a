//! A seat with its workers: it claims cells of a slab until there is none, and bisects them.
ghost use Rattle.std.specs.Prelude.{◌≡◌, ◌<◌, ◌≤◌, length, slice_get, IfOk, Some, None};
ghost use Rattle.cell_claims.specs.Numbers.{late};
ghost use Rattle.bisection.specs.Progress.{AreOptions, limits_of};
ghost use Rattle.bisection.specs.Cells.{AreLaws, CanDescend, Descends, output_of};
ghost use Rattle.bisection.specs.Desks.{CanWork, IsDesk, IsLeft, HasWorked, no_output};

use crate::cell::{Made, Part, Slab};
use crate::descend::nothing;
use crate::slab::descend_lent;
use cell_claims::{CellDone, CellWork, ClaimSeat, Claims, TraceList};
use rgb_base::{Ids, OutOfMemory, Pace};
use std::alloc::Global;
use std::thread::Threads;

/// The cells that are left of a claimed cell.
#[derive(Drop)]
pub(crate) struct Left {
    pub(crate) place: u32,
    pub(crate) parts: Vec<Part>,
}

/// A seat with its workers, and what it made.
#[derive(Drop)]
pub(crate) struct Desk {
    pub(crate) seat: ClaimSeat,
    pub(crate) workers: u32,
    /// Of each cell that it gave back.
    pub(crate) left: Vec<Left>,
    /// It met want of memory.
    pub(crate) failed: bool,
}

/// The documents of a cell in their new order, the cells that are left and the kept rounds.
#[derive(Drop)]
struct Bisected {
    docs: Vec<u32>,
    made: Made,
}

/// Makes the levels of a slab over a copy of a cell's documents. A cell that is still to be split is
/// shown to the pace before its work.
fn bisect<R: Threads + Sync, P: Pace>(
    rt: &R,
    alloc: Global,
    pace: &P,
    slab: &Slab<'_>,
    part: &Part,
    cell: &CellWork,
    workers: u32,
) -> Result<Bisected, OutOfMemory>
    requires laws { AreLaws }
    requires can { CanDescend slab.now.options slab.now.logs.now slab.now.last cell.now.level
        cell.now.start part.now cell.now.docs }
    requires order { cell.now.level < slab.now.last }
    ensures ok { IfOk result (λ bisected. Descends (limits_of slab.now.options)
        slab.now.options.depth cell.now.level slab.now.last cell.now.start part.now cell.now.docs
        bisected.docs.items no_output (output_of bisected.made)) }
{
    if part.rows.is_some() {
        pace.at_cell(cell.level, cell.place);
    }
    let mut docs = Vec::from_slice(alloc, cell.docs.as_slice())?;
    let mut made = nothing(alloc);
    let CellWork { level, start, .. } = cell;
    descend_lent(
        rt, alloc, pace, slab, part, &mut docs, *level, *start, workers, &mut made,
    )?;
    Ok(Bisected { docs, made })
}

/// Makes the levels of the slab over a cell that was claimed.
fn make<R: Threads + Sync, P: Pace>(
    rt: &R,
    alloc: Global,
    pace: &P,
    slab: &Slab<'_>,
    parts: &[Part],
    claims: &Claims,
    cell: &CellWork,
    workers: u32,
) -> Result<(CellDone, Left), OutOfMemory>
    requires laws { AreLaws }
    requires work { CanWork slab.now.options slab.now.logs.now slab.now.last parts.now
        claims.now.cells }
    requires claimed { slice_get claims.now.cells cell.now.place ≡ Some cell.now }
    ensures place { IfOk result (λ made. made.0.place ≡ cell.now.place) }
    ensures made { IfOk result (λ made. IsLeft slab.now.options slab.now.last parts.now
        claims.now.cells made.0 made.1) }
{
    let place = cell.place;
    let part = &parts[place as usize];
    let Bisected { docs, made } = bisect(rt, alloc, pace, slab, part, cell, workers)?;
    let Made { parts, trace } = made;
    let docs = Ids::of(docs);
    let kept = TraceList::of(trace);
    Ok((CellDone { place, docs, kept }, Left { place, parts }))
}

/// Works on a cell that was claimed, or after want of memory leaves it as it is.
fn work_on<R: Threads + Sync, P: Pace>(
    rt: &R,
    alloc: Global,
    pace: &P,
    slab: &Slab<'_>,
    parts: &[Part],
    claims: &Claims,
    cell: CellWork,
    workers: u32,
    left: &mut Vec<Left>,
    failed: &mut bool,
) -> CellDone
    requires laws { AreLaws }
    requires work { CanWork slab.now.options slab.now.logs.now slab.now.last parts.now
        claims.now.cells }
    requires claimed { slice_get claims.now.cells cell.place ≡ Some cell }
    ensures worked { HasWorked slab.now.options slab.now.last parts.now claims.now.cells cell.place
        result failed.old failed.new left.old.items left.new.items }
{
    if !*failed {
        if let Ok((done, one)) = make(rt, alloc, pace, slab, parts, claims, &cell, workers) {
            match left.push(one) {
                Ok(()) => return done,
                Err(_) => *failed = true,
            }
        } else {
            *failed = true;
        }
    }
    let CellWork { place, docs, .. } = cell;
    let kept = TraceList::of(Vec::new(alloc));
    CellDone { place, docs, kept }
}

/// Claims cells and works on them until there is none.
pub(crate) fn work<R: Threads + Sync, P: Pace>(
    rt: &R,
    alloc: Global,
    pace: &P,
    slab: &Slab<'_>,
    parts: &[Part],
    claims: &Claims,
    desk: &mut Desk,
)
    requires laws { AreLaws }
    requires work { CanWork slab.now.options slab.now.logs.now slab.now.last parts.now
        claims.now.cells }
    requires desk { IsDesk slab.now.options slab.now.last parts.now claims.now desk.old }
    ensures desk { IsDesk slab.now.options slab.now.last parts.now claims.now desk.new }
    ensures shares { desk.new.seat.shares ≡ desk.old.seat.shares }
    ensures over { 0 < late (length claims.now.cells) desk.new.seat.drawn }
{
    while let Some(cell) = desk.seat.claim(claims) {
        let workers = desk.workers;
        let done = work_on(
            rt,
            alloc,
            pace,
            slab,
            parts,
            claims,
            cell,
            workers,
            &mut desk.left,
            &mut desk.failed,
        );
        desk.seat.give(claims, done);
    }
}
