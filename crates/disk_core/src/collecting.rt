ghost use Rattle.std.specs.Prelude.{◌≡◌, ℕ, ◌<◌, ◌≤◌, OnOk, OnErr};
ghost use Rattle.token_table.specs.Records.{done_at};
ghost use Rattle.disk_core.specs.Moves.{after_collect, HasPlace};

use crate::entering::enter;
use crate::parts::Core;
use history::Entry;
use token_table::{Done, NotThere};

/// Hands a request back where it has ended and was not yet handed back.
#[tactic(auto, unfolding(crate::specs::Moves::with_entry, crate::specs::Moves::after_collect))]
pub fn collect_from(core: &mut Core, tag: u32, number: u64) -> Result<Done, NotThere>
    requires { OnOk (done_at core.old.tokens number) (HasPlace core.old × (0 < core.old.owed)) }
    ensures answer { result ≡ done_at core.old.tokens number }
    ensures ok { OnOk result (core.new ≡ after_collect core.old tag number) }
    ensures err { OnErr result (core.new ≡ core.old) }
{
    let done = core.tokens.take(number)?;
    enter(core, Entry::Collect { tag, token: number }, 1);
    Ok(done)
}
