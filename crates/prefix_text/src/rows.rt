// Worked examples, which the definitions compute to.
ghost use Rattle.std.specs.Prelude.{◌-◌, ◌^◌, [], ◌∷◌, codes};
ghost use Rattle.either.specs.declared.Either.TheVariants.{Left, Right};
ghost use Rattle.prefix_text.specs.declared.command.Command.TheVariants.{Compact, Fill, Lookup, Generate};
ghost use Rattle.prefix_text.specs.Rows.{Generates, HasLines, HasText, IsCommand, IsLineOf, IsNoCommand, IsNoLine};

/// Words that are commands, and words that are none.
pub fn words_of_commands()
    ensures none { IsNoCommand [] }
    ensures word_behind { IsNoCommand (codes "compact" ∷ codes "x" ∷ []) }
    ensures leading_zero { IsNoCommand (codes "fill" ∷ codes "01" ∷ []) }
    ensures short_address { IsNoCommand (codes "lookup" ∷ codes "4" ∷ codes "0a" ∷ codes "8" ∷ []) }
    ensures sign { IsNoCommand (codes "fill" ∷ codes "+1" ∷ []) }
    ensures large_value { IsNoCommand (codes "fill" ∷ codes "4294967296" ∷ []) }
    ensures large_count { IsNoCommand (codes "gen" ∷ codes "7" ∷ codes "100001" ∷ []) }
    ensures long_prefix { IsNoCommand (codes "cover" ∷ codes "4" ∷ codes "0a000000" ∷ codes "33" ∷ []) }
    ensures compact { IsCommand (codes "compact" ∷ []) Compact }
    ensures fill { IsCommand (codes "fill" ∷ codes "0" ∷ []) (Fill 0) }
    ensures lookup { IsCommand (codes "lookup" ∷ codes "4" ∷ codes "0A010180" ∷ codes "25" ∷ []) (Lookup (Left (0x0a010180, 25))) }
    ensures generate { IsCommand (codes "gen" ∷ codes "18446744073709551615" ∷ codes "100000" ∷ []) (Generate (2 ^ 64 - 1) 100000) }
{}

/// Lines of entries, and lines that are none.
pub fn lines_of_entries()
    ensures first { IsLineOf (codes "4 0a010000 24 2") (Left (0x0a010000, 24), 2) }
    ensures second { IsLineOf (codes "6 20010db8000100000000000000000000 48 4") (Right (0x20010db8000100000000000000000000, 48), 4) }
    ensures host_bits { IsLineOf (codes "4 0A0000fF 8 0") (Left (0x0a0000ff, 8), 0) }
    ensures empty { IsNoLine [] }
    ensures three_words { IsNoLine (codes "4 0a010000 24") }
    ensures two_spaces { IsNoLine (codes "4  0a010000 24 2") }
    ensures space_behind { IsNoLine (codes "4 0a010000 24 2 ") }
    ensures return_behind { IsNoLine (codes "4 0a010000 24 2\r") }
    ensures other_family { IsNoLine (codes "5 0a010000 24 2") }
    ensures no_line { HasLines [] [] }
    ensures empty_line { HasLines (codes "\n") ([] ∷ []) }
    ensures last_line { HasLines (codes "a\n\nb") (codes "a" ∷ [] ∷ codes "b" ∷ []) }
    ensures ended { HasLines (codes "a\nb\n") (codes "a" ∷ codes "b" ∷ []) }
{}

/// Lines that are printed.
pub fn lines_that_are_printed()
    ensures first { HasText (Left (0x0a000000, 8), 1) (codes "4 0a000000 8 1\n") }
    ensures second { HasText (Right (0x20010db8000000000000000000000000, 32), 3) (codes "6 20010db8000000000000000000000000 32 3\n") }
{}

/// Entries that seeds give.
pub fn entries_of_seeds()
    ensures none { Generates 1 0 [] }
    ensures seed_0 { Generates 0 2 ((Left (436792849, 9), 2) ∷ (Right (130541094099729285209345166357402056590, 35), 1) ∷ []) }
    ensures seed_2 { Generates 2 1 ((Right (312078445929246798991365405455468699791, 38), 6) ∷ []) }
{}
