//! Laws of archives of two families.
ghost use Rattle.std.proofs.lemmas.Map.Lookups.{CmpEqualImpliesEq};
ghost use Rattle.prefix_model.specs.Spelling.{Codec};
ghost use Rattle.prefix_joint_archive.specs.Compacting.{CountsPositions, FullNeedsEntries, IsCanonical};
ghost use Rattle.prefix_joint_archive.specs.Written.{ReadsWrittenPair};

use prefix_layout::ValueCodec;

/// Two archives are compacted to the same bytes exactly where each address has the same answer in both or in neither.
pub fn compacting_is_canonical<T: ValueCodec>()
    requires { CmpEqualImpliesEq T.cmp }
    ensures { IsCanonical T.codec T.cmp }
{}

/// A table has at most one position, and for each entry a fifth of the width more: few entries have room in an archive.
pub fn positions_are_few<V>()
    ensures { CountsPositions V }
{}

/// A least table has 2^32 or more positions only where a fifth of the width for each entry of the table makes as many.
pub fn overflow_needs_entries<T: ValueCodec>()
    requires { CmpEqualImpliesEq T.cmp }
    ensures { FullNeedsEntries T.codec T.cmp }
{}

/// What is written of two tables is accepted, and the tables that it spells are those that were written: each question
/// of the archive has the answer of the live tables.
pub fn written_is_read<V>()
    ensures { (codec : Codec V) → ReadsWrittenPair codec }
{}
