//! A permutation of documents, with both ways one look-up: two tables of 4 bytes a document each.
ghost use Rattle.std.specs.Prelude.{◌≡◌, ℕ, ◌<◌, ◌≤◌, ◌^◌, List, length, map, All, slice_get, slice_index, Some, IfOk, IfErr};
ghost use Rattle.rgb_base.specs.Order.{IsOrder, IsOrderFault, AreTables, IsInverse, Renumbers, new_of};

use crate::error::{OrderError, OutOfMemory};
use std::alloc::{AllocError, Global};
use std::marker::Model;

/// The place of a number that has none yet: more than any place.
const NO_PLACE: u32 = u32::MAX;

/// A permutation of documents. Contracts see the list of the old number at each new number.
#[derive(Debug, Drop)]
pub struct Permutation {
    order: Vec<u32>,
    places: Vec<u32>,
}

impl Model for Permutation {
    ghost use Rattle.std.specs.Prelude.{ℕ, List};
    ghost use Rattle.rgb_base.specs.Order.{AreTables};

    ghost Value = { List ℕ };

    ghost view = { λ p. p.order.items };

    ghost invariant = { λ p. AreTables p.order.items p.places.items };
}

impl Permutation {
    /// The permutation in which `order[i]` is the old number of the document whose new number is i.
    pub fn from_order(alloc: Global, order: Vec<u32>) -> Result<Permutation, OrderError>
        requires { length order.items < 2 ^ 31 }
        ensures ok { IfOk result (λ p. p ≡ order.items) }
        ensures sound { IfOk result IsOrder }
        ensures fault { IfErr result (IsOrderFault order.items) }
    {
        let places = places_of(alloc, &order)?;
        Ok(Permutation { order, places })
    }

    /// The permutation of n documents that leaves each where it is.
    pub fn identity(alloc: Global, n: u32) -> Result<Permutation, OutOfMemory>
        requires { n < 2 ^ 31 }
        ensures ok { IfOk result (λ p. Renumbers p n (λ old. old)) }
        ensures sound { IfOk result IsOrder }
    {
        let order = first_numbers(alloc, n)?;
        let places = first_numbers(alloc, n)?;
        Ok(Permutation { order, places })
    }

    /// What each permutation keeps.
    pub fn is_sound(&self)
        ensures sound { IsOrder self.now }
    {
        let _ = &self.order;
    }

    /// How many documents there are.
    pub fn len(&self) -> u32
        ensures same { result ≡ length self.now }
    {
        self.order.len() as u32
    }

    /// The new number of an old one.
    #[inline]
    pub fn new_of(&self, old: u32) -> u32
        requires { old < length self.now }
        ensures same { result ≡ new_of self.now old }
        ensures undoes { slice_get self.now result ≡ Some old }
    {
        self.places[old as usize]
    }

    /// The old number of a new one.
    #[inline]
    pub fn old_of(&self, new: u32) -> u32
        requires { new < length self.now }
        ensures same { slice_get self.now new ≡ Some result }
        ensures undoes { new_of self.now result ≡ new }
    {
        self.order[new as usize]
    }

    /// The permutation that undoes this one.
    pub fn inverse(&self, alloc: Global) -> Result<Permutation, OutOfMemory>
        ensures ok { IfOk result (IsInverse self.now) }
    {
        let order = Vec::from_slice(alloc, &self.places)?;
        let places = Vec::from_slice(alloc, &self.order)?;
        Ok(Permutation { order, places })
    }

    /// The permutation that undoes this one, in its place: it takes no memory.
    pub fn into_inverse(self) -> Permutation
        ensures same { IsInverse self result }
    {
        Permutation {
            order: self.places,
            places: self.order,
        }
    }

    /// A second one like it.
    pub fn copy(&self, alloc: Global) -> Result<Permutation, OutOfMemory>
        ensures ok { IfOk result (λ p. p ≡ self.now) }
    {
        let order = Vec::from_slice(alloc, &self.order)?;
        let places = Vec::from_slice(alloc, &self.places)?;
        Ok(Permutation { order, places })
    }

    /// First the one, then this one: `after.new_of(old) = self.new_of(first.new_of(old))`.
    pub fn after(&self, alloc: Global, first: &Permutation) -> Result<Permutation, OutOfMemory>
        requires { length first.now ≡ length self.now }
        ensures ok { IfOk result
            (λ p. Renumbers p (length self.now) (λ old. new_of self.now (new_of first.now old))) }
        ensures sound { IfOk result IsOrder }
    {
        let order = looked_up(alloc, &first.order, &self.order)?;
        let places = looked_up(alloc, &self.places, &first.places)?;
        Ok(Permutation { order, places })
    }
}

/// The place of each number, or the first place whose number is wrong there.
fn places_of(alloc: Global, order: &[u32]) -> Result<Vec<u32>, OrderError>
    requires { length order.now < 2 ^ 31 }
    ensures ok { IfOk result (λ places. AreTables order.now places.items) }
    ensures fault { IfErr result (IsOrderFault order.now) }
{
    let mut places = vec![in alloc; NO_PLACE; order.len()]?;
    for (place, value) in order.iter().enumerate() {
        let value = *value;
        if order.len() <= value as usize || places[value as usize] != NO_PLACE {
            let place = place as u32;
            return Err(OrderError::NotAPermutation { place, value });
        }
        places[value as usize] = place as u32;
    }
    Ok(places)
}

/// The numbers below n, in order.
fn first_numbers(alloc: Global, n: u32) -> Result<Vec<u32>, AllocError>
    ensures len { IfOk result (λ numbers. length numbers.items ≡ n) }
    ensures each { IfOk result (λ numbers. (k : ℕ) → k < n → slice_index numbers.items k ≡ k) }
{
    (0..n).collect(alloc)
}

/// What the table has at each of the numbers.
fn looked_up(alloc: Global, table: &[u32], numbers: &[u32]) -> Result<Vec<u32>, AllocError>
    requires { All (λ number. number < length table.now) numbers.now }
    ensures { IfOk result
        (λ found. found.items ≡ map (λ number. slice_index table.now number) numbers.now) }
{
    numbers
        .iter()
        .map(|number| table[*number as usize])
        .collect(alloc)
}
