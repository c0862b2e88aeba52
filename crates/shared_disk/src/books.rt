ghost use Rattle.std.specs.Prelude.{◌≡◌, ℕ, ◌<◌, ◌^◌, sum_by, true, false, IsSome, Some, option_copied, slice_get, OnOk, length, vec_len, vec_capacity};
ghost use Rattle.shared_disk.specs.declared.books.Buffer.{Buffer};
ghost use Rattle.shared_disk.specs.declared.books.Course.{Course};
ghost use Rattle.shared_disk.specs.Script.{AreOver};
ghost use Rattle.shared_disk.specs.Inside.{end_at, order_in, done_in, roles_in, given_in, ChangesCourse, IsRoomy, HasTokenRoom, HasToken, HasLineMore, AddsToken, KeepsBuffer, PutsBuffer};
ghost use Rattle.shared_disk.specs.Desk.{given_at};

use crate::clients::Client;
use efi_status::Status;
use history::Order;
use std::alloc::AllocError;
use token_table::Done;

/// Where the buffer of a token is.
#[derive(Drop)]
pub enum Buffer {
    /// With the disk: the token was not collected.
    Awaited,
    /// Here, with the status of the token.
    Kept(Done),
    /// With another caller, who collected the token.
    Gone,
}

/// What is kept of a token.
#[derive(Drop)]
pub struct Slot {
    pub tag: u32,
    pub buffer: Buffer,
}

/// How far a client has come.
#[derive(Drop)]
pub struct Course {
    /// For each line that was done, how many entries stood before it.
    pub places: Vec<u64>,
    /// The numbers of its tokens in order.
    pub tokens: Vec<u64>,
    /// The first so many of them have ended.
    pub ended: usize,
    /// The first so many of them were collected.
    pub collected: usize,
}

impl Course {
    /// Makes room for one more token. The error is want of memory.
    pub fn make_room(&mut self) -> Result<(), AllocError>
        ensures same { IsRoomy self.old self.new }
        ensures room { OnOk result (vec_len self.new.tokens < vec_capacity self.new.tokens) }
    {
        self.tokens.reserve(1)
    }

    /// The token at a place in their order. None exactly past the last.
    pub fn token(&self, place: usize) -> Option<u64>
        ensures { result ≡ slice_get self.now.tokens.items place }
    {
        self.tokens.get(place).copied()
    }

    /// Adds a token.
    pub fn add_token(&mut self, number: u64)
        requires { vec_len self.old.tokens < vec_capacity self.old.tokens }
        ensures { HasToken number self.old self.new }
    {
        self.tokens.push_reserved(number);
    }

    /// Notes that a line was done before which so many entries stood.
    pub fn add_place(&mut self, before: u64)
        requires { vec_len self.old.places < vec_capacity self.old.places }
        ensures { HasLineMore before self.old self.new }
    {
        self.places.push_reserved(before);
    }
}

/// What a desk keeps beside its disk.
#[derive(Drop)]
pub struct Books {
    /// How many entries the opening history has.
    pub opened: u64,
    pub clients: Vec<Client>,
    /// One for each client.
    pub courses: Vec<Course>,
    /// One for each token.
    pub slots: Vec<Slot>,
    /// The first so many tokens have ended.
    pub ended: usize,
    /// The first so many tokens were collected.
    pub collected: usize,
}

impl Books {
    /// The next line of a client, counted from 0. None exactly where no line is left.
    pub fn next(&self, place: usize) -> Option<&Order>
        requires there { place < length self.now.clients.items }
        requires paired { length self.now.courses.items ≡ length self.now.clients.items }
        ensures { option_copied result ≡ order_in self.now place }
    {
        self.clients[place]
            .orders
            .get(self.courses[place].places.len())
    }

    /// How many lines all clients have done.
    pub fn done_lines(&self) -> u64
        requires { sum_by (λ course. vec_len course.places) self.now.courses.items < 2 ^ 64 }
        ensures { result ≡ sum_by (λ course. vec_len course.places) self.now.courses.items }
    {
        let mut done = 0;
        for place in 0..self.courses.len() {
            done += self.courses[place].places.len() as u64;
        }
        done
    }

    /// Whether no client has a line left.
    pub fn is_over(&self) -> bool
        requires { length self.now.courses.items ≡ length self.now.clients.items }
        ensures over { result ≡ true → AreOver (roles_in self.now) (done_in self.now) }
        ensures left { result ≡ false → (i : ℕ) × IsSome (order_in self.now i) }
    {
        for place in 0..self.clients.len() {
            if self.next(place).is_some() {
                return false;
            }
        }
        true
    }

    /// The buffer of a token that was collected here.
    pub fn given(&self, token: u64) -> Option<&[u8]>
        ensures { option_copied result ≡ given_at (given_in self.now) token }
    {
        match self.slots.get(token as usize)? {
            Slot {
                buffer: Buffer::Kept(done),
                ..
            } => Some(done.buffer.as_slice()),
            _ => None,
        }
    }

    /// How a token ended that was collected here.
    pub fn ended(&self, token: u64) -> Option<Status>
        ensures { result ≡ end_at self.now token }
    {
        match self.slots.get(token as usize)? {
            Slot {
                buffer: Buffer::Kept(done),
                ..
            } => Some(done.status),
            _ => None,
        }
    }

    /// Makes room for one more token of a client. The error is want of memory.
    pub fn make_room(&mut self, place: usize) -> Result<(), AllocError>
        requires { place < length self.old.courses.items }
        ensures same { ChangesCourse self.old place IsRoomy self.new }
        ensures room { OnOk result (HasTokenRoom self.new place) }
    {
        self.courses[place].make_room()?;
        self.slots.reserve(1)
    }

    /// Notes that a client has done a line before which so many entries stood.
    pub fn add_place(&mut self, place: usize, before: u64)
        requires there { place < length self.old.courses.items }
        requires room { (c : Course) → slice_get self.old.courses.items place ≡ Some c
            → vec_len c.places < vec_capacity c.places }
        ensures { ChangesCourse self.old place (HasLineMore before) self.new }
    {
        self.courses[place].add_place(before);
    }

    /// Adds a token of a client.
    pub fn add_token(&mut self, place: usize, tag: u32, number: u64)
        requires there { place < length self.old.courses.items }
        requires room { HasTokenRoom self.old place }
        ensures { AddsToken self.old place tag number self.new }
    {
        self.slots.push_reserved(Slot {
            tag,
            buffer: Buffer::Awaited,
        });
        self.courses[place].add_token(number);
    }

    /// Notes that another caller has the buffer of a token.
    pub fn let_go(&mut self, number: usize)
        requires { number < length self.old.slots.items }
        ensures { PutsBuffer self.old number Buffer.Gone self.new }
    {
        self.slots[number].buffer = Buffer::Gone;
    }

    /// Keeps the buffer of a token, and its status.
    pub fn keep(&mut self, number: usize, done: Done)
        requires { number < length self.old.slots.items }
        ensures { KeepsBuffer self.old number done self.new }
    {
        self.slots[number].buffer = Buffer::Kept(done);
    }
}
