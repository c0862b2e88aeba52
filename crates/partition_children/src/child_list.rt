ghost use Rattle.std.specs.Prelude.{◌≡◌, [], ◌∷◌, ◌++◌, OnOk};
ghost use Rattle.partition_tables.specs.declared.table.Origin.{Origin};

use partition_tables::{Child, Origin};
use std::alloc::AllocError;

/// Adds a child behind the others: its number, its first block and how many it has, and what the table says of it beside. The error
/// is want of memory.
pub fn add(
    children: &mut Vec<Child>,
    number: u32,
    span: (u64, u64),
    origin: Origin,
) -> Result<(), AllocError>
    ensures { OnOk result (children.new.items ≡ children.old.items
        ++ record { number = number; first = span.0; blocks = span.1; origin = origin } ∷ []) }
{
    let (first, blocks) = span;
    children.reserve(1)?;
    children.push_reserved(Child {
        number,
        first,
        blocks,
        origin,
    });
    Ok(())
}
