//! The desks of a slab, side by side.
ghost use Rattle.std.specs.Prelude.{◌≡◌, ◌<◌, ◌≤◌, ◌+◌, ◌^◌, ◌||◌, ℕ, [], length, sum_by, slice_index_or, All, IfOk};
ghost use Rattle.std.specs.Thread.{IsSync};
ghost use Rattle.bisection.specs.declared.desk.Desk.{Desk};
ghost use Rattle.bisection.specs.Cells.{AreLaws, CanDescendAll, DescendsAll, output_of};
ghost use Rattle.bisection.specs.Progress.{limits_of};
ghost use Rattle.bisection.specs.Desks.{CanWork, IsDesk, IsOver, AreDesks, AreCells, AreSeated, AreOver, AreComing, HasEachPlace, ArePlaced, AreAllMade, seats_of};
ghost use Rattle.cell_claims.specs.Claims.{AreNew, shares_of};

use crate::cell::{Made, Part, Slab};
use crate::desk::{Desk, Left, work};
use cell_claims::{CellDone, CellWork, ClaimSeat, Claims};
use rgb_base::{Ids, OutOfMemory, Pace};
use std::alloc::Global;
use std::thread;
use std::thread::Threads;

/// Lets each desk claim cells until there is none.
pub(crate) fn work_all<R: Threads + Sync, P: Pace>(
    rt: &R,
    alloc: Global,
    pace: &P,
    slab: &Slab<'_>,
    parts: &[Part],
    claims: &Claims,
    desks: &mut [Desk],
)
    requires laws { AreLaws }
    requires some { 0 < length desks.old }
    requires work { CanWork slab.now.options slab.now.logs.now slab.now.last parts.now
        claims.now.cells }
    requires desks { AreDesks slab.now.options slab.now.last parts.now claims.now desks.old }
    ensures len { length desks.new ≡ length desks.old }
    ensures over { (i : ℕ) (d : Desk) → i < length desks.old → IsOver slab.now.options slab.now.last
        parts.now claims.now (slice_index_or desks.old i d) (slice_index_or desks.new i d) }
{
    let threads = desks.len();
    thread::for_each_mut(
        rt,
        desks,
        threads,
        &|_, desk: &mut Desk|
            requires { IsSync R.row × IsSync P.row × AreLaws × CanWork slab.now.options
                slab.now.logs.now slab.now.last parts.now claims.now.cells
                × IsDesk slab.now.options slab.now.last parts.now claims.now desk.old }
            ensures { IsOver slab.entry.now.options slab.entry.now.last parts.entry.now claims.entry.now
                desk.old desk.new }
        { work(rt, alloc, pace, slab, parts, claims, desk) },
    );
}

/// The documents of each part, copied, as the cells that are claimed.
pub(crate) fn cells_of(
    alloc: Global,
    parts: &[Part],
    docs: &[u32],
    level: u32,
) -> Result<Vec<CellWork>, OutOfMemory>
    requires len { length docs.now ≡ sum_by (λ part. part.len) parts.now }
    requires few { length docs.now < 2 ^ 31 }
    ensures cells { IfOk result (λ cells. AreCells level parts.now docs.now cells.items) }
{
    // No memory has room for so many parts.
    let Ok(count) = u32::try_from(parts.len()) else {
        return Err(OutOfMemory);
    };
    let mut cells = Vec::with_capacity(alloc, parts.len())?;
    let mut start = 0;
    for place in 0..count {
        let end = start + parts[place as usize].len;
        let own = Vec::from_slice(alloc, &docs[start as usize..end as usize])?;
        let docs = Ids::of(own);
        cells.push(CellWork {
            place,
            level,
            start,
            docs,
        })?;
        start = end;
    }
    Ok(cells)
}

/// Gives each seat its share of the workers: the first seats get one more where there is a rest.
pub(crate) fn desks_of(
    alloc: Global,
    slab: &Slab<'_>,
    parts: &[Part],
    claims: &Claims,
    mut seats: Vec<ClaimSeat>,
) -> Result<Vec<Desk>, OutOfMemory>
    requires new { AreNew claims.now seats.items }
    requires some { 0 < length seats.items }
    requires most { length seats.items ≤ 64 }
    ensures len { IfOk result (λ desks. length desks.items ≡ length seats.items) }
    ensures desks { IfOk result (λ desks. AreSeated slab.now.options slab.now.last parts.now
        claims.now [] desks.items) }
{
    let workers = slab.options.workers;
    let count = seats.len() as u32;
    let mut desks = Vec::with_capacity(alloc, seats.len())?;
    while let Some(seat) = seats.pop() {
        let more = u32::from((seats.len() as u32) < workers % count);
        desks.push(Desk {
            seat,
            workers: workers / count + more,
            left: Vec::new(alloc),
            failed: false,
        })?;
    }
    Ok(desks)
}

/// The seats of desks, and what they left.
#[derive(Drop)]
pub(crate) struct Back {
    pub(crate) seats: Vec<ClaimSeat>,
    pub(crate) left: Vec<Left>,
    pub(crate) failed: bool,
}

/// Whether one of them is true.
fn either(one: bool, other: bool) -> bool
    ensures { result ≡ (one || other) }
{
    one || other
}

/// Takes the desks apart.
pub(crate) fn back_of(
    alloc: Global,
    slab: &Slab<'_>,
    parts: &[Part],
    claims: &Claims,
    mut desks: Vec<Desk>,
) -> Result<Back, OutOfMemory>
    requires over { AreOver slab.now.options slab.now.last parts.now claims.now desks.items }
    requires shares { shares_of (seats_of desks.items) ≡ 64 }
    ensures back { IfOk result (λ back. AreComing slab.now.options slab.now.last parts.now
        claims.now [] back.seats.items back.failed back.left.items) }
{
    let mut seats = Vec::with_capacity(alloc, desks.len())?;
    let mut all = Vec::new(alloc);
    let mut any = false;
    while let Some(desk) = desks.pop() {
        let Desk {
            seat,
            mut left,
            failed,
            ..
        } = desk;
        seats.push(seat)?;
        all.append(&mut left)?;
        any = either(any, failed);
    }
    Ok(Back {
        seats,
        left: all,
        failed: any,
    })
}

/// The cells that are left of each place.
pub(crate) fn by_place(
    alloc: Global,
    count: usize,
    mut lefts: Vec<Left>,
) -> Result<Vec<Vec<Part>>, OutOfMemory>
    requires within { All (λ left. left.place < count) lefts.items }
    requires cover { HasEachPlace count lefts.items }
    ensures placed { IfOk result (λ table. ArePlaced count lefts.items table.items) }
{
    let mut table = Vec::with_capacity(alloc, count)?;
    for _ in 0..count {
        table.push(Vec::new(alloc))?;
    }
    while let Some(left) = lefts.pop() {
        let Left { place, parts } = left;
        table[place as usize] = parts;
    }
    Ok(table)
}

/// Puts cells that are done one behind the other: gives their documents in order.
pub(crate) fn join_up(
    alloc: Global,
    slab: &Slab<'_>,
    parts: &[Part],
    docs: &[u32],
    level: u32,
    dones: &[CellDone],
    table: &mut Vec<Vec<Part>>,
    made: &mut Made,
) -> Result<Vec<u32>, OutOfMemory>
    requires done { AreAllMade slab.now.options level slab.now.last parts.now docs.now dones.now
        table.old.items }
    ensures ok { IfOk result (λ order. DescendsAll (limits_of slab.now.options)
        slab.now.options.depth level slab.now.last 0 parts.now docs.now order.items
        (output_of made.old) (output_of made.new)) }
{
    let mut order = Vec::with_capacity(alloc, docs.len())?;
    for place in 0..parts.len() {
        let done = &dones[place];
        order.extend_from_slice(done.docs.as_slice())?;
        made.trace.extend_from_slice(done.kept.as_slice())?;
        made.parts.append(&mut table[place])?;
    }
    Ok(order)
}

/// Makes the levels of a slab over the cells of the slab before, which so many seats claim. Gives
/// the documents in their new order.
pub(crate) fn claim_all<R: Threads + Sync, P: Pace>(
    rt: &R,
    alloc: Global,
    pace: &P,
    slab: &Slab<'_>,
    parts: &[Part],
    docs: &[u32],
    level: u32,
    seats: u32,
    made: &mut Made,
) -> Result<Vec<u32>, OutOfMemory>
    requires laws { AreLaws }
    requires can { CanDescendAll
        slab.now.options slab.now.logs.now slab.now.last level 0 parts.now docs.now }
    requires some { 0 < seats }
    requires most { seats ≤ 64 }
    ensures ok { IfOk result (λ order. DescendsAll (limits_of slab.now.options)
        slab.now.options.depth level slab.now.last 0 parts.now docs.now order.items
        (output_of made.old) (output_of made.new)) }
{
    let cells = cells_of(alloc, parts, docs, level)?;
    let (claims, seats) = Claims::new(alloc, cells, seats)?;
    let mut desks = desks_of(alloc, slab, parts, &claims, seats)?;
    work_all(rt, alloc, pace, slab, parts, &claims, &mut desks);
    let Back {
        seats,
        left,
        failed,
    } = back_of(alloc, slab, parts, &claims, desks)?;
    let dones = claims.close(alloc, seats)?;
    if failed {
        return Err(OutOfMemory);
    }
    let mut table = by_place(alloc, parts.len(), left)?;
    join_up(alloc, slab, parts, docs, level, &dones, &mut table, made)
}
