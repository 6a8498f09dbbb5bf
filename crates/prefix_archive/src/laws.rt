//! Laws of archives.
ghost use Rattle.prefix_model.specs.Spelling.{Codec, IsLawful};
ghost use Rattle.prefix_model.specs.SpellingLaws.{SpellsOnePair, IsExact};
ghost use Rattle.prefix_archive.specs.Archives.{TellsBytes, TellsBytesOfPair, SpellsOneTable, HasOneSpelling, IsPrefixFree, HasCauseUnlessSpelled, ReadsWritten};

/// Bytes spell at most one table, and at most one pair of tables.
pub fn bytes_spell_one_table<V>()
    ensures one { (codec : Codec V) → SpellsOneTable codec }
    ensures pair { (codec : Codec V) → SpellsOnePair codec }
{}

/// A table has one spelling.
pub fn tables_have_one_spelling<V>()
    ensures { (codec : Codec V) → HasOneSpelling codec }
{}

/// No spelling of a table is a proper prefix of another in the same width and codec.
pub fn spellings_end_themselves<V>()
    ensures { (codec : Codec V) → IsPrefixFree codec }
{}

/// There is no cause exactly where the bytes spell a table, and of two families exactly where they spell a pair.
pub fn causes_are_exact<V>()
    ensures one { (codec : Codec V) → IsLawful codec → HasCauseUnlessSpelled codec }
    ensures pair { (codec : Codec V) → IsLawful codec → IsExact codec }
{}

/// What is written of a table is accepted, and the table that it spells is the one that was written: each question of
/// the archive has the answer of the live table.
pub fn written_is_read<V>()
    ensures { (codec : Codec V) → ReadsWritten codec }
{}

/// Bytes that spell tables are equal exactly where the tables are, and are the spelling of the table that they spell.
pub fn tables_tell_bytes<V>()
    ensures one { (codec : Codec V) → TellsBytes codec }
    ensures pair { (codec : Codec V) → TellsBytesOfPair codec }
{}
