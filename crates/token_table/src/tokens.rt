ghost use Rattle.std.specs.Prelude.{◌≡◌, ℕ, ◌-◌, ◌<◌, ◌≤◌, ◌^◌, [], length, Some, IfOk, IfErr, IfSome, OnOk, OnErr, option_copied};
ghost use Rattle.token_table.specs.declared.record.Record.{Record};
ghost use Rattle.token_table.specs.Records.{record_at, request_at, with_record, with_change, fill_record, lower_record, ended_record, without_record, mark_at, done_at, AreShown};
ghost use Rattle.std.specs.Borrow.{Lends, Array, sem, u8 as byte};
ghost use Rattle.std.specs.Option.{option_map};

use crate::record::{Done, Mark, NotAdded, NotThere, Record, Request};
use efi_status::Status;
use event_cell::Signaller;
use slab::Slab;
use std::alloc::Global;
use std::collections::BTreeMap;
use std::marker::Model;

/// The accepted requests that were not handed out, by number. A look-up takes logarithmic time in how many they are, and
/// the memory is theirs alone (own profile).
#[derive(Drop)]
pub struct Tokens {
    records: Slab<Record>,
    index: BTreeMap<u64, usize>,
    given: u64,
}

impl Model for Tokens {
    ghost use Rattle.token_table.specs.Records.{Records};

    ghost Value = { Records };

    ghost use Rattle.token_table.specs.Index.{records_of, IsIndexed};

    ghost view = { λ t. records_of t.index t.records t.given };

    ghost invariant = { λ t. IsIndexed t.index t.records t.given };
}

impl Tokens {
    ghost use Rattle.token_table.specs.contracts.tokens.Tokens.{the_row};

    /// No requests, which takes no memory.
    pub fn make(alloc: Global) -> Tokens
        ensures { result ≡ [] }
    {
        Tokens {
            records: Slab::new(alloc),
            index: BTreeMap::new(alloc),
            given: 0,
        }
    }

    /// Adds a request that has not ended, and answers its number: how many were added before it. The error is want of
    /// memory; it gives both back, and nothing has changed.
    pub fn add(&mut self, request: Request, signaller: Signaller) -> Result<u64, NotAdded>
        requires few { length self.old < 2 ^ 64 - 1 }
        requires silent { signaller.told ≡ 0 }
        ensures number { IfOk result (λ number. number ≡ length self.old) }
        ensures added { OnOk result (self.new ≡ with_record self.old request signaller) }
        ensures request { IfErr result (λ back. back.request ≡ request) }
        ensures signaller { IfErr result (λ back. back.signaller ≡ signaller) }
        ensures err { OnErr result (self.new ≡ self.old) }
        ensures shown { AreShown self.new }
    {
        let number = self.given;
        let record = Record {
            request,
            ended: None,
            signaller,
        };
        let key = match self.records.insert(record) {
            Ok(key) => key,
            Err(refused) => return Err(refused.value.not_added()),
        };
        let Ok(_) = self.index.insert(number, key) else {
            return Err(self.records.remove(key).not_added());
        };
        self.given += 1;
        Ok(number)
    }

    // What is kept of the request with this number.
    fn record(&self, number: u64) -> Option<&Record>
        ensures value { option_copied result ≡ record_at self.now number }
        ensures shown { AreShown self.now }
    {
        let key = self.index.get(&number)?;
        self.records.get(*key)
    }

    /// What was asked by the request with this number. None exactly where the number was never given or the request was
    /// handed out.
    #[tactic(auto, unfolding(crate::specs::Records::request_at))]
    pub fn find(&self, number: u64) -> Option<&Request>
        ensures value { option_copied result ≡ request_at self.now number }
        ensures shown { AreShown self.now }
    {
        Some(&self.record(number)?.request)
    }

    /// How the request with this number stands.
    #[tactic(auto, unfolding(crate::specs::Records::mark_at))]
    pub fn mark(&self, number: u64) -> Mark
        ensures value { result ≡ mark_at self.now number }
        ensures shown { AreShown self.now }
    {
        let Some(record) = self.record(number) else {
            return Mark::Unknown;
        };
        match record.ended {
            Some(status) => Mark::Ended(status),
            None => Mark::Outstanding,
        }
    }

    /// Lends the buffer of the request, which is outstanding, for filling. Nothing else changes.
    pub fn buffer_mut(&mut self, number: u64) -> &mut [u8]
        requires { mark_at self.old number ≡ Mark.Outstanding }
        ensures* lends { sem 𝓛 (Lends the_row (Array byte 0) self.entry result (λ bytes. with_change (λ r. fill_record r bytes) self.entry.now number)) }
        ensures value { Some result.now ≡ option_map (λ q. q.buffer) (request_at self.old number) }
    {
        let key = self.index[&number];
        self.records[key].request.buffer.as_mut_slice()
    }

    /// Takes `by` from what is left of the request, which is outstanding and has as much left. Nothing else changes.
    pub fn lower(&mut self, number: u64, by: u64)
        requires outstanding { mark_at self.old number ≡ Mark.Outstanding }
        requires left { IfSome (request_at self.old number) (λ r. by ≤ r.left) }
        ensures value { self.new ≡ with_change (lower_record by) self.old number }
        ensures shown { AreShown self.new }
    {
        let key = self.index[&number];
        self.records[key].request.left -= by;
    }

    /// Ends the request, which is outstanding, with this status, and signals its event.
    pub fn end(&mut self, number: u64, status: Status)
        requires { mark_at self.old number ≡ Mark.Outstanding }
        ensures value { self.new ≡ with_change (ended_record status) self.old number }
        ensures shown { AreShown self.new }
    {
        let key = self.index[&number];
        let record = &mut self.records[key];
        record.ended = Some(status);
        record.signaller.signal(status);
    }

    /// Hands the request with this number out. Outstanding exactly where it has not ended; Unknown exactly where the
    /// number was never given or the request was handed out. Nothing has then changed.
    pub fn take(&mut self, number: u64) -> Result<Done, NotThere>
        ensures answer { result ≡ done_at self.old number }
        ensures ok { OnOk result (self.new ≡ without_record self.old number) }
        ensures err { OnErr result (self.new ≡ self.old) }
        ensures shown { AreShown self.new }
    {
        let Some(key) = self.index.get(&number) else {
            return Err(NotThere::Unknown);
        };
        let key = *key;
        let ended = self.records[key].ended;
        let status = match ended {
            Some(status) => status,
            None => return Err(NotThere::Outstanding),
        };
        self.index.remove(&number);
        let Record { request, .. } = self.records.remove(key);
        Ok(Done {
            status,
            buffer: request.buffer,
        })
    }
}
