ghost use Rattle.std.specs.Prelude.{ℕ, List, ◌≡◌, ◌+◌, ◌<◌, ◌≤◌, ◌^◌, [], ◌∷◌, ◌++◌, ◌==◌, IsTrue, IsSome, IfSome, OnSome};
ghost use Rattle.std.specs.List.{list_any};
ghost use Rattle.mbr_records.specs.Chain.{link_at, most_read, names};

use crate::mbr::Mbr;
use crate::partition_record::MbrRecord;
use std::marker::Model;

/// How many extended boot records of one chain are read at most (own profile).
const MOST_READ: usize = 128;

/// How many blocks they and the extended partition name.
const MOST_NAMED: usize = 129;

/// The chain of extended boot records of one extended partition (own profile).
///
/// Contracts see it as what it was begun with and what each block that was fed names as the next.
#[derive(Drop)]
pub struct Chain {
    start: u64,
    size: u64,
    fed: usize,
    // What named the blocks, counted from the start: 0, and then the link of each record that was fed.
    named: [Option<u32>; MOST_NAMED],
}

impl Model for Chain {
    ghost use Rattle.std.specs.Prelude.{◌≡◌, ◌+◌, ◌<◌, ◌≤◌, ◌^◌, length, take};
    ghost use Rattle.mbr_records.specs.Chain.{Trail, most_read};

    ghost Value = { Trail };

    ghost view = { λ c. record { start = c.start; size = c.size; named = take (c.fed + 1) c.named } };

    ghost invariant = { λ c. (c.fed ≤ most_read) × (length c.named ≡ most_read + 1) × (c.start + c.size < 2 ^ 64) };
}

impl Chain {
    ghost use Rattle.mbr_records.specs.Chain.{trail_after, count_of, logical_at, logical_of, may_visit, next_record_block, trail_of};

    /// The chain of the extended partition that begins at this block and has so many blocks. An empty one has no chain.
    pub fn begin(start: u64, size: u64) -> Chain
        requires { start + size < 2 ^ 64 }
        ensures { result ≡ trail_of start size [] }
    {
        let mut named = [None; MOST_NAMED];
        named[0] = Some(0);
        Chain {
            start,
            size,
            fed: 0,
            named,
        }
    }

    /// The block of the extended boot record to be fed next. None exactly where the chain has ended: where the last record that was
    /// fed named none or was not marked with 55 AA, where the block that it named lies outside the extended partition or was visited
    /// before, or where 128 were fed.
    pub fn next_block(&self) -> Option<u64>
        ensures exact { result ≡ next_record_block self.now }
        ensures inside { IfSome result (λ block. (self.now.start ≤ block) × (block < self.now.start + self.now.size)) }
        ensures few { OnSome result (count_of self.now < most_read) }
    {
        let place = u64::from(self.named[self.fed]?);
        if self.may_visit(place) {
            Some(self.start + place)
        } else {
            None
        }
    }

    /// Whether the extended boot record that stands so many blocks behind the start may be read next.
    fn may_visit(&self, place: u64) -> bool
        ensures exact { result ≡ may_visit self.now (self.now.start + place) }
        ensures inside { IsTrue result → place < self.now.size }
    {
        place < self.size && !contains_place(&self.named[..self.fed], place) && self.fed < MOST_READ
    }

    /// Takes the extended boot record at `next_block`, and answers the first block and the number of blocks of the logical partition
    /// that it gives: where its first record is used, of a type other than 05, 0F and EE, does not start at 0, and has its blocks in
    /// the extended partition, counted from this extended boot record on.
    pub fn feed(&mut self, block: &[u8; 512]) -> Option<(u64, u64)>
        requires { IsSome (next_record_block self.old) }
        ensures chain { self.new ≡ trail_after self.old block.now }
        ensures blocks { (start size : ℕ) (fed : List (List ℕ)) →
            self.old ≡ trail_of start size fed → self.new ≡ trail_of start size (fed ++ block.now ∷ []) }
        ensures logical { result ≡ logical_of self.old block.now }
        ensures inside { IfSome result (λ p. (self.old.start < p.0) × (p.0 + p.1 ≤ self.old.start + self.old.size)) }
    {
        let own = self.next_block().unwrap();
        let Some(ebr) = Mbr::read(block) else {
            self.push(None);
            return None;
        };
        let [first, second, _, _] = ebr.records();
        let logical = self.logical(own, first);
        self.push(link(second));
        logical
    }

    /// Notes what an extended boot record that was fed names as the next.
    fn push(&mut self, link: Option<u32>)
        requires { count_of self.old < most_read }
        ensures { self.new ≡ record self.old { named = self.old.named ++ link ∷ [] } }
    {
        self.fed += 1;
        self.named[self.fed] = link;
    }

    /// The logical partition that the first record of the extended boot record at the block `own` gives.
    fn logical(&self, own: u64, entry: MbrRecord) -> Option<(u64, u64)>
        requires start { self.now.start ≤ own }
        requires end { own < self.now.start + self.now.size }
        ensures exact { result ≡ logical_at self.now own entry }
        ensures inside { IfSome result (λ p. (self.now.start < p.0) × (p.0 + p.1 ≤ self.now.start + self.now.size)) }
    {
        let after = self.size - (own - self.start);
        let (start, size) = (u64::from(entry.start), u64::from(entry.size));
        if entry.is_data() && start != 0 && start + size <= after {
            Some((own + start, size))
        } else {
            None
        }
    }
}

/// What the second record of an extended boot record names as the next.
fn link(entry: MbrRecord) -> Option<u32>
    ensures { result ≡ link_at entry }
{
    if entry.is_extended() {
        Some(entry.start)
    } else {
        None
    }
}

/// Whether some link names the block that stands so many blocks behind the start.
fn contains_place(named: &[Option<u32>], place: u64) -> bool
    ensures { result ≡ list_any (names place) named.now }
{
    named
        .iter()
        .any(|link| link.is_some_and(|x| u64::from(x) == place))
}
