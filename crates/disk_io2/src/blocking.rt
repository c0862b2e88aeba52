ghost use Rattle.std.specs.Prelude.{◌≡◌, ◌≢◌, ◌+◌, ◌^◌, ◌<◌, ◌≤◌, ◌⊎◌, true, false, None, Some, is_some, IfOk, IfErr};
ghost use Rattle.efi_status.specs.declared.Status.{Status};
ghost use Rattle.history.specs.Tokens.{token_count, was_collected};
ghost use Rattle.history.specs.Marks.{mark_of, IsOutstanding};
ghost use Rattle.history.specs.Room.{owed_entries};
ghost use Rattle.disk_core.specs.declared.answers.Why.{Why};
ghost use Rattle.disk_core.specs.Calls.{asked_of};
ghost use Rattle.disk_core.specs.Turns.{IsIdle, KeepsGates};
ghost use Rattle.disk_io2.specs.Blocking.{Serves, Finishes, BlockingSays};

use disk_core::{Ask, Disk, Refused, Step, Stored, Why};
use efi_status::Status;
use history::View;
use medium::Medium;
use token_table::{Done, Mark};

// Makes the command that comes next while a token is outstanding. A fetched group is stored at once.
fn step_once<M: Medium>(disk: &mut Disk<M>, number: u64)
    requires idle { IsIdle disk.old.gates }
    requires outstanding { IsOutstanding disk.old.setup disk.old.entries number }
    ensures gates { KeepsGates disk.old disk.new }
    ensures serves { Serves disk.old number disk.new }
    ensures lowers { owed_entries disk.old.setup disk.new.entries + 1
        ≤ owed_entries disk.old.setup disk.old.entries }
{
    // Its facts say that a step is the next turn.
    disk.history();
    match disk.step() {
        Step::Did => {}
        Step::Drained => unreachable!(),
        Step::Idle => unreachable!(),
        Step::Lent(mut work) => {
            work.merge();
            match disk.store(work) {
                Stored::Did => {}
                Stored::Stale => unreachable!(),
                Stored::Foreign(work) => {
                    work.discard();
                    unreachable!()
                }
                Stored::Strange(work, _, _, _) => {
                    work.discard();
                    unreachable!()
                }
            }
        }
    }
}

// Whether a token that was not handed back is outstanding.
fn is_open<M: Medium>(disk: &Disk<M>, number: u64) -> bool
    requires there { number < token_count disk.now.entries }
    requires uncollected { was_collected disk.now.entries number ≡ false }
    ensures yes { result ≡ true → IsOutstanding disk.now.setup disk.now.entries number }
    ensures no { result ≡ false
        → is_some (mark_of disk.now.setup disk.now.entries number) ≡ true }
{
    match disk.mark(number) {
        Mark::Outstanding => true,
        Mark::Ended(_) => false,
        Mark::Unknown => unreachable!(),
    }
}

// Serves a token, and those before it, until it has ended.
fn serve<M: Medium>(disk: &mut Disk<M>, number: u64)
    requires idle { IsIdle disk.old.gates }
    requires there { number < token_count disk.old.entries }
    requires uncollected { was_collected disk.old.entries number ≡ false }
    ensures gates { KeepsGates disk.old disk.new }
    ensures serves { Serves disk.old number disk.new }
    ensures ended { is_some (mark_of disk.new.setup disk.new.entries number) ≡ true }
{
    while is_open(disk, number) {
        step_once(disk, number);
    }
}

// What a token that was handed back answers.
fn answer_of(done: Done) -> Result<Vec<u8>, Refused>
    ensures ok { IfOk result (λ buffer. (done.status ≡ Status.Success)
        × (buffer.items ≡ done.buffer)) }
    ensures err { IfErr result (λ refused. (done.status ≢ Status.Success)
        × (refused.why ≡ Why.Status done.status) × (refused.buffer.items ≡ done.buffer)) }
{
    let Done { status, buffer } = done;
    let buffer = buffer.into_vec();
    match status {
        Status::Success => Ok(buffer),
        _ => Err(Refused {
            why: Why::Status(status),
            buffer,
        }),
    }
}

// Serves a token that is outstanding or has succeeded, until it has ended, and collects it.
fn finish<M: Medium>(disk: &mut Disk<M>, tag: u32, number: u64) -> Result<Vec<u8>, Refused>
    requires idle { IsIdle disk.old.gates }
    requires there { number < token_count disk.old.entries }
    requires uncollected { was_collected disk.old.entries number ≡ false }
    requires so_far { (mark_of disk.old.setup disk.old.entries number ≡ None)
        ⊎ (mark_of disk.old.setup disk.old.entries number ≡ Some Status.Success) }
    ensures gates { KeepsGates disk.old disk.new }
    ensures ok { IfOk result (λ buffer.
        Finishes disk.old tag number Status.Success false buffer.items disk.new) }
    ensures err { IfErr result (λ refused. (refused.why ≡ Why.Status Status.DeviceError)
        × Finishes disk.old tag number Status.DeviceError true refused.buffer.items disk.new) }
{
    serve(disk, number);
    match disk.collect(tag, number) {
        Ok(done) => answer_of(done),
        Err(_) => unreachable!(),
    }
}

/// Submits a request, serves it and all requests before it until it has ended, and collects it. It asks for at most 16
/// MiB. No gate is held, no work is out, and a buffer set is free; so it is afterwards, whatever is answered. The error
/// is the refusal, or the status with which the request ended: then device error. The buffer comes back with it.
pub fn carry_out<M: Medium>(
    disk: &mut Disk<M>,
    tag: u32,
    view: &View,
    media_id: u32,
    ask: Ask,
) -> Result<Vec<u8>, Refused>
    requires most { (asked_of ask).length ≤ 2 ^ 24 }
    requires idle { IsIdle disk.old.gates }
    ensures idle { IsIdle disk.new.gates }
    ensures says { BlockingSays disk.old tag view.now media_id ask result disk.new }
{
    // Its facts say that each token that was not handed back has its buffer.
    disk.history();
    let token = disk.submit(tag, view, media_id, ask)?;
    finish(disk, tag, token.number)
}
