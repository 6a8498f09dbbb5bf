// Laws of positions, spellings and the first cause.
ghost use Rattle.std.specs.Prelude.{ℕ, List, Bool};
ghost use Rattle.std.specs.Int.{Width};
ghost use Rattle.prefix_model.specs.Spelling.{Codec, IsLawful, unit_codec, raw_codec};
ghost use Rattle.prefix_model.specs.SpellingLaws.{ListsPositions, SpellsOne, SpellsOnePair, AcceptsSpelled, SpellsAccepted};
ghost use Rattle.prefix_model.specs.SpellingLaws.{IsExact, IsCodecOfNumbers};
ghost use Rattle.prefix_model.specs.Reading.{ReadsTable, PositionsComeOut};
ghost use Rattle.prefix_model.specs.Depths.{DepthsFollowParents, ChecksByNumber};
ghost use Rattle.prefix_model.specs.InPlace.{LeadsDown};

/// The positions are the empty key and each prefix of a stored key whose length is a multiple of five, in order.
pub fn positions_are_prefixes()
    ensures { ListsPositions }
{}

/// The positions come out of a queue that begins with the empty key, where the positions right below each go to its end.
pub fn positions_come_out()
    ensures { PositionsComeOut }
{}

/// A front of bytes that spells a table tells the table and where it ends.
pub fn bytes_spell_one_table<V>()
    ensures { (codec : Codec V) → SpellsOne codec }
{}

/// Bytes spell at most one pair.
pub fn bytes_spell_one_pair<V>()
    ensures { (codec : Codec V) → SpellsOnePair codec }
{}

/// What is spelled is accepted, whatever follows.
pub fn spelled_is_accepted<V>()
    ensures { (codec : Codec V) → AcceptsSpelled codec }
{}

/// What is accepted is spelled.
pub fn accepted_is_spelled<V>()
    ensures { (codec : Codec V) → IsLawful codec → SpellsAccepted codec }
{}

/// There is no cause exactly where the bytes spell a pair.
pub fn pairs_are_exact<V>()
    ensures { (codec : Codec V) → IsLawful codec → IsExact codec }
{}

/// The table that bytes spell has the entries that stand in the records and values, in the order of the bytes.
pub fn records_tell_entries<V>()
    ensures { (codec : Codec V) → ReadsTable codec }
{}

/// The depth of a record is five more than that of the first record whose child bits, with those before, count it.
pub fn depths_follow_parents()
    ensures { DepthsFollowParents }
{}

/// The check of the records makes the tests of each with its number and its depth.
pub fn records_are_checked_by_number()
    ensures { ChecksByNumber }
{}

/// The record of each number is that of the node at the position of that number, and tells the numbers of its values and children.
pub fn records_lead_down<V>()
    ensures { LeadsDown V }
{}

/// Numbers of each width are spelled in as many bytes, the least significant first, and all such bytes spell one.
pub fn numbers_are_lawful()
    ensures { (w : Width) → IsCodecOfNumbers w }
{}

/// Values of no bytes, as the keys of a set have.
pub fn units_are_lawful()
    ensures { IsLawful unit_codec }
{}

/// Values that are their own spelling, where a test accepts them.
pub fn raw_values_are_lawful()
    ensures { (size : ℕ) (accepted : List ℕ → Bool) → IsLawful (raw_codec size accepted) }
{}
