ghost use Rattle.std.specs.Prelude.{◌≡◌, ◌≢◌, ℕ, ◌+◌, ◌*◌, ◌^◌, ◌/◌, ◌<◌, ◌≤◌, length, vec_capacity, IsSome, is_some, IfSome, IfNone, OnOk, Some, None, option_copied, true, false, not};
ghost use Rattle.std.specs.Option.{option_map};
ghost use Rattle.std.specs.List.{list_any, IsDistinct};
ghost use Rattle.std.specs.Ordering.{nat_cmp, eq_by_cmp};
ghost use Rattle.std.specs.BTreeMap.{get, btree_map_len, ContainsKey, Updates};
ghost use Rattle.std.proofs.lemmas.Map.Keys.{IsDistinct-prop};
ghost use Rattle.medium.specs.declared.place.Place.{Place};
ghost use Rattle.medium.specs.Blocks.{AreHeldFrom, overlay};
ghost use Rattle.medium.specs.Places.{is_filled, filled_block};

use crate::place::Place;
use byte_lists::patch_into;
use std::alloc::{AllocError, Global};
use std::collections::BTreeMap;

/// Blocks by number, each of one size, in places that were made beforehand.
#[derive(Drop)]
pub struct BlockMap {
    alloc: Global,
    places: BTreeMap<u64, Place>,
    /// The numbers of the blocks that it holds, in the order in which they came.
    filled: Vec<u64>,
    size: u32,
    ghost sized: { (b : ℕ) (place : Place) → get nat_cmp places b ≡ Some place → length place.bytes.items ≡ size },
    ghost listed: { (b : ℕ) → list_any (eq_by_cmp nat_cmp b) filled.items ≡ is_filled (get nat_cmp places b) },
    ghost distinct: { IsDistinct (eq_by_cmp nat_cmp) filled.items } by { IsDistinct-prop (eq_by_cmp nat_cmp) filled.items },
    ghost room: { btree_map_len places ≤ vec_capacity filled },
}

/// Puts a block into its place, and tells whether that was empty.
fn fill_place(places: &mut BTreeMap<u64, Place>, block: u64, bytes: &[u8]) -> bool
    requires place { ContainsKey nat_cmp places.old block }
    requires long { (place : Place) → get nat_cmp places.old block ≡ Some place → length place.bytes.items ≡ length bytes.now }
    ensures here { IfSome (get nat_cmp places.new block) (λ place. (place.filled ≡ true) × (place.bytes.items ≡ bytes.now)) }
    ensures there { ContainsKey nat_cmp places.new block }
    ensures others { (b : ℕ) → b ≢ block → get nat_cmp places.new b ≡ get nat_cmp places.old b }
    ensures count { btree_map_len places.new ≡ btree_map_len places.old }
    ensures empty { result ≡ not (is_filled (get nat_cmp places.old block)) }
{
    match places.get_mut(&block) {
        Some(place) => {
            let was = place.filled;
            place.filled = true;
            place.bytes.copy_from_slice(bytes);
            !was
        }
        None => unreachable!(),
    }
}

/// Empties a place.
fn empty_place(places: &mut BTreeMap<u64, Place>, block: u64)
    ensures here { is_filled (get nat_cmp places.new block) ≡ false }
    ensures bytes { (b : ℕ) → option_map (λ place. place.bytes.items) (get nat_cmp places.new b) ≡ option_map (λ place. place.bytes.items) (get nat_cmp places.old b) }
    ensures others { (b : ℕ) → b ≢ block → get nat_cmp places.new b ≡ get nat_cmp places.old b }
    ensures count { btree_map_len places.new ≡ btree_map_len places.old }
{
    if let Some(place) = places.get_mut(&block) {
        place.filled = false;
    }
}

impl BlockMap {
    ghost use Rattle.medium.specs.BlockMap.{held_block, HasPlaceFor, held_count, last_of};

    /// A map with no place.
    pub fn new(alloc: Global, size: u32) -> BlockMap
        ensures blocks { (b : ℕ) → held_block result b ≡ None }
        ensures size { result.size ≡ size }
    {
        BlockMap {
            alloc,
            places: BTreeMap::new(alloc),
            filled: Vec::new(alloc),
            size,
        }
    }

    /// Makes a place for a block. The error is want of memory.
    pub fn make_place(&mut self, block: u64) -> Result<(), AllocError>
        ensures blocks { (b : ℕ) → held_block self.new b ≡ held_block self.old b }
        ensures here { OnOk result (HasPlaceFor self.new block) }
        ensures stay { (b : ℕ) → HasPlaceFor self.old b → HasPlaceFor self.new b }
        ensures size { self.new.size ≡ self.old.size }
    {
        if self.places.contains_key(&block) {
            return Ok(());
        }
        self.filled
            .reserve(self.places.len() + 1 - self.filled.len())?;
        let bytes = vec![in self.alloc; 0; self.size as usize]?;
        let place = Place {
            filled: false,
            bytes,
        };
        self.places.insert(block, place).map_err(AllocError::from)?;
        Ok(())
    }

    /// Makes places for `count` blocks from one on. The error is want of memory.
    pub fn make_places(&mut self, first: u64, count: u64) -> Result<(), AllocError>
        requires { first + count < 2 ^ 64 }
        ensures blocks { (b : ℕ) → held_block self.new b ≡ held_block self.old b }
        ensures ready { OnOk result ((b : ℕ) → first ≤ b → b < first + count → HasPlaceFor self.new b) }
        ensures stay { (b : ℕ) → HasPlaceFor self.old b → HasPlaceFor self.new b }
        ensures size { self.new.size ≡ self.old.size }
    {
        for i in 0..count {
            self.make_place(first + i)?;
        }
        Ok(())
    }

    /// The block with this number. None exactly where it is not held.
    pub fn get(&self, block: u64) -> Option<&[u8]>
        ensures value { option_copied result ≡ held_block self.now block }
        ensures long { IfSome result (λ bytes. length bytes.now ≡ self.now.size) }
    {
        let place = self.places.get(&block)?;
        if place.filled {
            Some(&place.bytes)
        } else {
            None
        }
    }

    /// Whether it holds the block.
    pub fn holds(&self, block: u64) -> bool
        ensures { result ≡ is_some (held_block self.now block) }
    {
        self.get(block).is_some()
    }

    /// Holds the block from now on, in its place.
    pub fn hold(&mut self, block: u64, bytes: &[u8])
        requires place { HasPlaceFor self.old block }
        requires long { length bytes.now ≡ self.old.size }
        ensures here { held_block self.new block ≡ Some bytes.now }
        ensures others { (b : ℕ) → b ≢ block → held_block self.new b ≡ held_block self.old b }
        ensures stay { (b : ℕ) → HasPlaceFor self.old b → HasPlaceFor self.new b }
        ensures size { self.new.size ≡ self.old.size }
    {
        if !fill_place(&mut self.places, block, bytes) {
            return;
        }
        self.filled.push_reserved(block);
    }

    /// Holds the `count` blocks of these bytes from now on, from block `first` on.
    pub fn hold_all(&mut self, first: u64, count: usize, bytes: &[u8])
        requires places { (b : ℕ) → first ≤ b → b < first + count → HasPlaceFor self.old b }
        requires long { length bytes.now ≡ count * self.old.size }
        requires fits { first + count < 2 ^ 64 }
        ensures held { AreHeldFrom (held_block self.old) (held_block self.new) first count self.old.size bytes.now }
        ensures stay { (b : ℕ) → HasPlaceFor self.old b → HasPlaceFor self.new b }
        ensures size { self.new.size ≡ self.old.size }
    {
        let size = self.size as usize;
        for i in 0..count {
            self.hold(first + i as u64, &bytes[i * size..i * size + size]);
        }
    }

    /// The block that came last. None exactly where it holds none.
    pub fn last(&self) -> Option<u64>
        ensures value { result ≡ last_of self.now }
        ensures none { IfNone result ((b : ℕ) → held_block self.now b ≡ None) }
        ensures some { IfSome result (λ b. IsSome (held_block self.now b)) }
    {
        self.filled.last().copied()
    }

    /// Lets the block go that came last. Its place stays.
    pub fn let_go(&mut self) -> Option<u64>
        ensures value { result ≡ last_of self.old }
        ensures none { IfNone result ((b : ℕ) → held_block self.new b ≡ None) }
        ensures here { IfSome result (λ b. held_block self.new b ≡ None) }
        ensures others { (b : ℕ) → result ≢ Some b → held_block self.new b ≡ held_block self.old b }
        ensures stay { (b : ℕ) → HasPlaceFor self.old b → HasPlaceFor self.new b }
        ensures size { self.new.size ≡ self.old.size }
        ensures fewer { IsSome result → held_count self.new < held_count self.old }
    {
        let block = self.filled.pop()?;
        empty_place(&mut self.places, block);
        Some(block)
    }

    /// Holds no block from now on. Their places stay.
    pub fn let_all_go(&mut self)
        ensures blocks { (b : ℕ) → held_block self.new b ≡ None }
        ensures stay { (b : ℕ) → HasPlaceFor self.old b → HasPlaceFor self.new b }
        ensures size { self.new.size ≡ self.old.size }
    {
        while self.let_go().is_some() {}
    }

    /// Puts the blocks that it holds in place of those of the bytes, which are whole blocks.
    pub fn put_into(mut self, bytes: &mut [u8])
        requires whole { length bytes.old ≡ length bytes.old / self.size * self.size }
        requires inside { (b : ℕ) → IsSome (held_block self b) → b < length bytes.old / self.size }
        ensures { bytes.new ≡ overlay (held_block self) self.size (length bytes.old / self.size) bytes.old }
    {
        while let Some(block) = self.last() {
            let Some(held) = self.get(block) else {
                unreachable!()
            };
            patch_into(bytes, block as usize * self.size as usize, held);
            let _ = self.let_go();
        }
    }
}
