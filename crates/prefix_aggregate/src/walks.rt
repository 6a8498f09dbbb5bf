// The two walks over change sets.
ghost use Rattle.std.specs.Prelude.{◌≡◌, IfOk};
ghost use Rattle.std.specs.Option.{option_copied};
ghost use Rattle.std.proofs.lemmas.Map.Lookups.{CmpEqualImpliesEq};
ghost use Rattle.prefix_model.specs.Tables.{HasWidth, answer};
ghost use Rattle.prefix_model.specs.LeastTable.{least_table};
ghost use Rattle.prefix_model.specs.Positions.{position_set};
ghost use Rattle.prefix_aggregate.specs.ChangeSets.{change_lists, node_positions, filled_with};

use crate::collecting::collect;
use crate::parts::{add_default, no_work};
use crate::sets::{ChangeSets, no_stacks};
use crate::writing::{Next, place_node};
use prefix_table::{Bits, Table, TableWriter};
use std::alloc::{AllocError, Global};

/// The change sets of a table, with a default for the empty key where none is stored there.
///
/// The only error is a refusal of memory; the table that is read stays as it is.
pub fn change_sets<'a, R: Bits, T: Clone + Ord>(
    alloc: Global,
    table: &'a Table<T>,
    default: Option<&'a T>,
) -> Result<ChangeSets<T>, AllocError>
    requires width { HasWidth R.WIDTH table.now.entries }
    requires clones { (x y : T) → T.is_clone x y → y ≡ x }
    ensures { IfOk result (λ sets. sets
        ≡ change_lists T.cmp R.WIDTH (answer (filled_with (option_copied default.entry) table.now.entries))
        (node_positions R.WIDTH table.now.kept)) }
{
    let mut work = no_work(alloc);
    let mut stacks = no_stacks(alloc);
    let inherited = add_default(&mut work, default)?;
    collect::<R, T>(table, &mut work, &mut stacks, table.root(), 0, inherited)?;
    Ok(ChangeSets::from_stacks(stacks))
}

/// The least table of a table with this default, by its change sets.
///
/// The only error is a refusal of memory; the table that is read stays as it is.
pub fn place_changes<'a, R: Bits, T: Clone + Ord>(
    alloc: Global,
    table: &'a Table<T>,
    default: Option<&'a T>,
    sets: &'a ChangeSets<T>,
) -> Result<Table<T>, AllocError>
    requires width { HasWidth R.WIDTH table.now.entries }
    requires order { CmpEqualImpliesEq T.cmp }
    requires clones { (x y : T) → T.is_clone x y → y ≡ x }

    // These are the change sets of this table with this default.
    requires sets { sets.now
        ≡ change_lists T.cmp R.WIDTH (answer (filled_with (option_copied default) table.now.entries))
        (node_positions R.WIDTH table.now.kept) }

    ensures least { IfOk result (λ new. new.entries
        ≡ least_table T.cmp R.WIDTH (filled_with (option_copied default.entry) table.now.entries)) }
    ensures kept { IfOk result (λ new. new.kept ≡ position_set new.entries) }
{
    let mut new = TableWriter::new(alloc);
    let mut next = Next { mask: 0, list: 0 };
    let key = R::zeros().keep(0);
    place_node(
        table,
        sets,
        &mut new,
        &mut next,
        table.root(),
        key,
        0,
        default,
        None,
    )?;
    Ok(new.into_table())
}
