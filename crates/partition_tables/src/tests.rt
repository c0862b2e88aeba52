ghost use Rattle.std.specs.Prelude.{◌≡◌, [], ◌∷◌, replicate};
ghost use Rattle.partition_tables.specs.Rows.{chain_medium, damaged_medium, mbr_medium, plain_medium};
ghost use Rattle.partition_tables.specs.Table.{table_of};

use super::*;
use std::test::Fail;
use uuid::Uuid;

/// The tables of small media, which their definition gives.
fn tables_of_small_media()
    ensures plain { table_of plain_medium 512 ≡ record { kind = TableKind.Plain; children = [] } }
    ensures damaged { table_of damaged_medium 512 ≡ record { kind = TableKind.GptDamaged; children = [] } }
    ensures mbr { table_of mbr_medium 512 ≡ record {
      kind = TableKind.Mbr;
      children = record { number = 1; first = 2; blocks = 3; origin = Origin.Mbr 0x83 0x12345678 0 } ∷ [];
    } }
    ensures chain { table_of chain_medium 512 ≡ record {
      kind = TableKind.Mbr;
      children = record { number = 1; first = 1; blocks = 1; origin = Origin.Mbr 0x83 0x12345678 0 }
          ∷ record { number = 5; first = 7; blocks = 2; origin = Origin.Mbr 0x83 0x12345678 0 }
          ∷ record { number = 6; first = 5; blocks = 1; origin = Origin.Mbr 0x07 0x12345678 0 } ∷ [];
    } }
{}

/// A list of children gives back what it was made of.
#[test]
fn keeps_children(rt: HostRuntime) -> Result<(), Fail> {
    tables_of_small_media();
    let primary = Child {
        number: 1,
        first: 64,
        blocks: 64,
        origin: Origin::Mbr {
            os_type: 0x83,
            signature: 0x1234_5678,
            boot: 0,
        },
    };
    let entry = Child {
        number: 2,
        first: 3072,
        blocks: 991,
        origin: Origin::Gpt {
            kind: Uuid::nil(),
            unique: Uuid::nil(),
            attributes: 5,
        },
    };
    let table = Table {
        kind: TableKind::Mbr,
        children: Children::from_vec(Vec::from_slice(rt.alloc(), &[primary, entry])?),
    };
    assert_eq!(rt; table.kind, TableKind::Mbr);
    assert_eq!(rt; table.children.as_slice(), [primary, entry].as_slice());
    let kept = table.children.into_vec();
    assert_eq!(rt; kept.as_slice(), [primary, entry].as_slice());
    Ok(())
}
