//! Cells in their slots, of which seats draw the numbers.
ghost use Rattle.std.specs.Prelude.{◌≡◌, ◌+◌, ◌<◌, ◌≤◌, [], ◌∷◌, length, map, slice_get, All, IfOk, Some, vec_capacity};
ghost use Rattle.std.specs.Mem.Slots.{IsFull, slots_items, slots_len};
ghost use Rattle.cell_claims.specs.declared.cell.Slot.TheVariants.{Ready, Away};
ghost use Rattle.cell_claims.specs.Numbers.{late};
ghost use Rattle.cell_claims.specs.Rule.{HasDrawn, IsOut, MayDraw, MayGive, first_hand, given_hand};
ghost use Rattle.cell_claims.specs.Kept.{IsGathered, AreAllDone, AreTaken};
ghost use Rattle.cell_claims.specs.Claims.{AreInPlace, AreNew, AreBack, AreDone, EachOnce, drawn_by, given_by};

use crate::cell::{CellDone, CellWork, Slot};
use crate::rule::{Both, ClaimRule, Draws, Hand, OneShare, Returns};
use crate::seat::ClaimSeat;
use atomic_table::{Closed, Seat, Table};
use rgb_base::OutOfMemory;
use std::alloc::{AllocError, Global};
use std::marker::Model;
use std::snapshot::Snapshot;

/// Cells that are claimed. Contracts see which claims they are, and the cells.
#[derive(Drop)]
pub struct Claims {
    pub(crate) table: Table<Slot, Hand, Snapshot<Vec<CellWork>>, ClaimRule, Global>,
}

impl Model for Claims {
    ghost use Rattle.cell_claims.specs.Claims.{Known};

    ghost Value = { Known };

    ghost use Rattle.cell_claims.specs.Kept.{known_in, AreClaims};

    ghost view = { known_in };

    ghost invariant = { AreClaims };
}

impl Claims {
    /// Lays out the cells, and makes so many seats.
    pub fn new(
        alloc: Global,
        cells: Vec<CellWork>,
        seats: u32,
    ) -> Result<(Claims, Vec<ClaimSeat>), OutOfMemory>
        requires places { AreInPlace cells.items }
        requires some { 0 < seats }
        requires most { seats ≤ 64 }
        ensures cells { IfOk result (λ made. made.0.cells ≡ cells.items) }
        ensures count { IfOk result (λ made. length made.1.items ≡ seats) }
        ensures seats { IfOk result (λ made. AreNew made.0 made.1.items) }
    {
        let (claims, first) = laid(alloc, cells)?;
        let seats = claims.deal(alloc, first, seats)?;
        Ok((claims, seats))
    }

    /// Shares out the first seat.
    fn deal(
        &self,
        alloc: Global,
        first: Seat<Slot, Hand>,
        seats: u32,
    ) -> Result<Vec<ClaimSeat>, AllocError>
        requires table { first.table_id ≡ self.now.id }
        requires first { first.me ≡ (first_hand self.now.cells, []) }
        requires some { 0 < seats }
        requires most { seats ≤ 64 }
        ensures count { IfOk result (λ made. length made.items ≡ seats) }
        ensures seats { IfOk result (λ made. AreNew self.now made.items) }
    {
        let mut first = first;
        let mut made = Vec::with_capacity(alloc, seats as usize)?;
        for _ in 1..seats {
            let seat = self.table.shared.split_seat::<OneShare>(&mut first);
            made.push(ClaimSeat::fresh(seat))?;
        }
        made.push(ClaimSeat::fresh(first))?;
        Ok(made)
    }

    /// Gives what became of the cells, in order, once all seats are back and one found no cell more.
    pub fn close(self, alloc: Global, seats: Vec<ClaimSeat>) -> Result<Vec<CellDone>, OutOfMemory>
        requires back { AreBack self seats.items }
        requires over { 0 < late (length self.cells) (drawn_by seats.items) }
        ensures once { IfOk result (λ dones.
            EachOnce (length self.cells) (drawn_by seats.items)) }
        ensures dones { IfOk result (λ dones.
            AreDone (length self.cells) (given_by seats.items) dones.items) }
    {
        let mut dones = Vec::with_capacity(alloc, self.len())?;
        let all = self.gather(seats);
        let Claims { table } = self;
        let closed = table.close_with(all);
        empty(closed, &mut dones);
        Ok(dones)
    }

    /// Makes all seats one.
    fn gather(&self, seats: Vec<ClaimSeat>) -> Seat<Slot, Hand>
        requires back { AreBack self.now seats.items }
        ensures table { result.table_id ≡ self.now.id }
        ensures none { result.me.1 ≡ [] }
        ensures gathered { IsGathered self.now seats.items [] result.me.0 }
    {
        let mut seats = seats;
        let Some(last) = seats.pop() else {
            unreachable!()
        };
        let mut all = last.into_seat();
        while let Some(other) = seats.pop() {
            self.table
                .shared
                .join_seat::<Both>(&mut all, other.into_seat());
        }
        all
    }

    /// How many cells there are.
    pub(crate) fn len(&self) -> usize
        ensures same { result ≡ length self.now.cells }
    {
        self.table.slot_count()
    }

    /// Draws the next number for a seat.
    pub(crate) fn draw(&self, seat: &mut Seat<Slot, Hand>) -> u64
        requires table { seat.old.table_id ≡ self.now.id }
        requires may { MayDraw self.now.cells seat.old.me }
        ensures table { seat.new.table_id ≡ seat.old.table_id }
        ensures drawn { HasDrawn seat.old.me result seat.new.me }
    {
        self.table.shared.fetch_add::<Draws>(seat, 0, 1)
    }

    /// Takes the cell whose slot went out to a seat.
    pub(crate) fn take(&self, seat: &mut Seat<Slot, Hand>, number: usize) -> CellWork
        requires table { seat.old.table_id ≡ self.now.id }
        requires out { IsOut seat.old.me.0 number seat.old.me.1 }
        ensures table { seat.new.table_id ≡ seat.old.table_id }
        ensures cell { slice_get seat.old.me.0.cells number ≡ Some result }
        ensures away { seat.new.me ≡ (seat.old.me.0, (number, Away) ∷ []) }
    {
        match self.table.shared.exchange(seat, number, Slot::Away) {
            Slot::Ready(cell) => cell,
            _ => unreachable!(),
        }
    }

    /// Puts a cell that is done into the slot that a seat has, and lets go of the slot.
    pub(crate) fn put(&self, seat: &mut Seat<Slot, Hand>, done: CellDone)
        requires table { seat.old.table_id ≡ self.now.id }
        requires may { MayGive self.now.cells done.place seat.old.me }
        ensures table { seat.new.table_id ≡ seat.old.table_id }
        ensures given { seat.new.me ≡ (given_hand seat.old.me.0 done, []) }
    {
        let place = done.place as usize;
        let away = self.table.shared.exchange(seat, place, Slot::Done(done));
        drop(away);
        self.table.shared.load::<Returns>(seat, 0);
    }
}

/// A table of these cells, with its first seat.
fn laid(alloc: Global, cells: Vec<CellWork>) -> Result<(Claims, Seat<Slot, Hand>), OutOfMemory>
    requires places { AreInPlace cells.items }
    ensures cells { IfOk result (λ made. made.0.cells ≡ cells.items) }
    ensures table { IfOk result (λ made. made.1.table_id ≡ made.0.id) }
    ensures first { IfOk result (λ made. made.1.me ≡ (first_hand cells.items, [])) }
{
    let about = Snapshot::of(&cells);
    let slots = ready(alloc, cells)?;
    match Table::new(alloc, &[0], slots, &about) {
        Ok((table, first)) => Ok((Claims { table }, first)),
        Err(_) => Err(OutOfMemory),
    }
}

/// A slot for each cell.
fn ready(alloc: Global, cells: Vec<CellWork>) -> Result<Vec<Slot>, AllocError>
    ensures { IfOk result (λ slots. slots.items ≡ map Ready cells.items) }
{
    cells
        .into_iter()
        .map(|cell| Slot::Ready(cell))
        .collect(alloc)
}

/// Takes the cells that are done out of their slots.
fn empty(mut closed: Closed<Slot, Global>, dones: &mut Vec<CellDone>)
    requires full { IsFull closed.slots }
    requires words { IsFull closed.words }
    requires done { AreAllDone (slots_len closed.slots) (slots_items closed.slots) }
    requires room { slots_len closed.slots ≤ vec_capacity dones.old }
    requires none { dones.old.items ≡ [] }
    ensures taken { AreTaken (slots_len closed.slots) (slots_items closed.slots) dones.new.items }
{
    let mut place = 0;
    while place < closed.slot_count() {
        let Slot::Done(done) = closed.take(place) else {
            unreachable!()
        };
        dones.push_reserved(done);
        place += 1;
    }
    closed.free();
}
