// Worked examples, which the definitions compute to.
ghost use Rattle.std.specs.Prelude.{◌≡◌, ◌+◌, ◌-◌, ◌^◌, ◌++◌, ℕ, List, [], ◌∷◌, map, length};
ghost use Rattle.prefix_model.specs.Keys.{number};
ghost use Rattle.prefix_model.specs.Positions.{data_places, child_places};
ghost use Rattle.prefix_model.specs.declared.Cause.TheVariants.{Truncated, TrailingBytes, InvalidValue, MissingRootNode};
ghost use Rattle.prefix_model.specs.declared.Cause.TheVariants.{NodeListTooLong, NodeListTooShort, NodeListInconsistent};
ghost use Rattle.prefix_model.specs.declared.Cause.TheVariants.{DataListInconsistent, DataListTooShort, DataListTooLong};
ghost use Rattle.prefix_model.specs.declared.Cause.TheVariants.{ContainsEmptyNode, DepthExceedsPrefixRepr};
ghost use Rattle.prefix_model.specs.Rows.{key, node, family, counted, empty_family, chain, count_up};
ghost use Rattle.prefix_model.specs.Rows.{IsSpelled, HasLeast, IsAccepted, IsRefused, IsRefusedAlone, IsRefusedOneByte};

/// Two empty tables are spelled in 48 bytes, and an empty table is least.
pub fn empty_pair()
    ensures spelled { IsSpelled [] empty_family }
    ensures bytes { length (empty_family ++ empty_family) ≡ 48 }
    ensures accepted { IsAccepted empty_family }
    ensures least { HasLeast 32 [] [] }
    ensures least_behind { HasLeast 128 [] [] }
{}

/// One key of eight bits, 00001010: a root with the child 00001, whose data bit 9 stands for the three bits 010.
pub fn one_octet()
    ensures spelled { IsSpelled ((key 8 0x0a, 1) ∷ []) (family (node 0 0x2 0 1 ∷ node 0x200 0 0 2 ∷ []) (1 ∷ [])) }
    ensures in_bytes { family (node 0 0x2 0 1 ∷ node 0x200 0 0 2 ∷ []) (1 ∷ [])
        ≡ 2 ∷ 0 ∷ 0 ∷ 0 ∷ 1 ∷ 0 ∷ 0 ∷ 0
        ∷ 0 ∷ 0 ∷ 0 ∷ 0 ∷ 2 ∷ 0 ∷ 0 ∷ 0 ∷ 0 ∷ 0 ∷ 0 ∷ 0 ∷ 1 ∷ 0 ∷ 0 ∷ 0
        ∷ 0 ∷ 2 ∷ 0 ∷ 0 ∷ 0 ∷ 0 ∷ 0 ∷ 0 ∷ 0 ∷ 0 ∷ 0 ∷ 0 ∷ 2 ∷ 0 ∷ 0 ∷ 0
        ∷ 1 ∷ 0 ∷ 0 ∷ 0 ∷ [] }
    ensures accepted { IsAccepted (family (node 0 0x2 0 1 ∷ node 0x200 0 0 2 ∷ []) (1 ∷ [])) }
    ensures least { HasLeast 32 ((key 8 0x0a, 1) ∷ []) ((key 8 0x0a, 1) ∷ []) }
{}

/// Halves with two values: the least of the two moves to the empty key.
pub fn two_halves()
    ensures spelled { IsSpelled ((key 1 0, 1) ∷ (key 1 1, 2) ∷ []) (family (node 0x6 0 0 1 ∷ []) (1 ∷ 2 ∷ [])) }
    ensures least { HasLeast 32 ((key 1 0, 1) ∷ (key 1 1, 2) ∷ []) (([], 1) ∷ (key 1 1, 2) ∷ []) }
    ensures least_spelled { IsSpelled (([], 1) ∷ (key 1 1, 2) ∷ []) (family (node 0x5 0 0 1 ∷ []) (1 ∷ 2 ∷ [])) }
{}

/// Halves with one value join.
pub fn equal_halves()
    ensures spelled { IsSpelled ((key 1 0, 7) ∷ (key 1 1, 7) ∷ []) (family (node 0x6 0 0 1 ∷ []) (7 ∷ 7 ∷ [])) }
    ensures least { HasLeast 32 ((key 1 0, 7) ∷ (key 1 1, 7) ∷ []) (([], 7) ∷ []) }
    ensures least_spelled { IsSpelled (([], 7) ∷ []) (family (node 0x1 0 0 1 ∷ []) (7 ∷ [])) }
{}

/// Addresses without an answer stay without one: no entry moves up over them.
pub fn beside_a_hole()
    ensures spelled { IsSpelled ((key 1 1, 7) ∷ (key 2 2, 7) ∷ []) (family (node 0x24 0 0 1 ∷ []) (7 ∷ 7 ∷ [])) }
    ensures least { HasLeast 32 ((key 1 1, 7) ∷ (key 2 2, 7) ∷ []) ((key 1 1, 7) ∷ []) }
    ensures least_spelled { IsSpelled ((key 1 1, 7) ∷ []) (family (node 0x4 0 0 1 ∷ []) (7 ∷ [])) }
    ensures alone_spelled { IsSpelled ((key 2 2, 7) ∷ []) (family (node 0x20 0 0 1 ∷ []) (7 ∷ [])) }
    ensures alone { HasLeast 32 ((key 2 2, 7) ∷ []) ((key 2 2, 7) ∷ []) }
{}

/// Four quarters with three values: the value of two of them moves to the empty key.
pub fn four_quarters()
    ensures spelled { IsSpelled ((key 2 0, 1) ∷ (key 2 1, 2) ∷ (key 2 2, 2) ∷ (key 2 3, 3) ∷ [])
        (family (node 0x78 0 0 1 ∷ []) (1 ∷ 2 ∷ 2 ∷ 3 ∷ [])) }
    ensures least { HasLeast 32 ((key 2 0, 1) ∷ (key 2 1, 2) ∷ (key 2 2, 2) ∷ (key 2 3, 3) ∷ [])
        (([], 2) ∷ (key 2 0, 1) ∷ (key 2 3, 3) ∷ []) }
    ensures least_spelled { IsSpelled (([], 2) ∷ (key 2 0, 1) ∷ (key 2 3, 3) ∷ [])
        (family (node 0x49 0 0 1 ∷ []) (2 ∷ 1 ∷ 3 ∷ [])) }
{}

/// Two tables with the same answers have one least table.
pub fn default_and_half()
    ensures spelled { IsSpelled (([], 1) ∷ (key 1 1, 2) ∷ []) (family (node 0x5 0 0 1 ∷ []) (1 ∷ 2 ∷ [])) }
    ensures least { HasLeast 32 (([], 1) ∷ (key 1 1, 2) ∷ []) (([], 1) ∷ (key 1 1, 2) ∷ []) }
    ensures other_spelled { IsSpelled (([], 2) ∷ (key 1 0, 1) ∷ []) (family (node 0x3 0 0 1 ∷ []) (2 ∷ 1 ∷ [])) }
    ensures other { HasLeast 32 (([], 2) ∷ (key 1 0, 1) ∷ []) (([], 1) ∷ (key 1 1, 2) ∷ []) }
{}

/// A key of five bits stands in a node of its own, before and after.
pub fn across_nodes()
    ensures spelled { IsSpelled ((key 4 0, 1) ∷ (key 5 0, 2) ∷ (key 4 1, 2) ∷ [])
        (family (node 0x18000 0x1 0 1 ∷ node 0x1 0 2 2 ∷ []) (1 ∷ 2 ∷ 2 ∷ [])) }
    ensures least { HasLeast 32 ((key 4 0, 1) ∷ (key 5 0, 2) ∷ (key 4 1, 2) ∷ []) ((key 3 0, 2) ∷ (key 5 1, 1) ∷ []) }
    ensures least_spelled { IsSpelled ((key 3 0, 2) ∷ (key 5 1, 1) ∷ [])
        (family (node 0x80 0x2 0 1 ∷ node 0x1 0 1 2 ∷ []) (2 ∷ 1 ∷ [])) }
{}

/// Two neighbouring addresses with one value join, seven nodes down.
pub fn two_host_routes()
    ensures spelled { IsSpelled ((key 32 0x01020304, 5) ∷ (key 32 0x01020305, 5) ∷ [])
        (family (node 0 0x1 0 1 ∷ node 0 0x10 0 2 ∷ node 0 0x2 0 3
        ∷ node 0 0x1 0 4 ∷ node 0 0x40 0 5 ∷ node 0 0x2 0 6 ∷ node 0x18 0 0 7 ∷ []) (5 ∷ 5 ∷ [])) }
    ensures least { HasLeast 32 ((key 32 0x01020304, 5) ∷ (key 32 0x01020305, 5) ∷ []) ((key 31 0x00810182, 5) ∷ []) }
    ensures least_spelled { IsSpelled ((key 31 0x00810182, 5) ∷ [])
        (family (node 0 0x1 0 1 ∷ node 0 0x10 0 2 ∷ node 0 0x2 0 3
        ∷ node 0 0x1 0 4 ∷ node 0 0x40 0 5 ∷ node 0 0x2 0 6 ∷ node 0x2 0 0 7 ∷ []) (5 ∷ [])) }
    ensures bytes { length (family (chain (1 ∷ 2 ∷ 3 ∷ 4 ∷ 5 ∷ 6 ∷ 7 ∷ [])) (5 ∷ []) ++ empty_family) ≡ 148 }
{}

/// Fewer bytes than a head takes, in the first family or the second.
pub fn cut_short()
    ensures seven_bytes { IsRefusedAlone (1 ∷ 0 ∷ 0 ∷ 0 ∷ 0 ∷ 0 ∷ 0 ∷ []) Truncated }
    ensures one_family { IsRefusedAlone empty_family Truncated }
    ensures no_records { IsRefusedAlone (counted 0xffffffff 0 [] []) Truncated }
{}

/// No records, though nothing follows.
pub fn no_root()
    ensures { IsRefusedAlone (counted 0 0 [] []) MissingRootNode }
{}

/// A second record that no child bit counts.
pub fn unreferenced_node()
    ensures { IsRefused (family (node 0 0 0 1 ∷ node 0x1 0x1 0 1 ∷ []) (7 ∷ [])) NodeListTooLong }
{}

/// Data bit 31 stands for no key.
pub fn bit_31()
    ensures { IsRefused (family (node 0x80000000 0 0 1 ∷ []) (7 ∷ [])) DepthExceedsPrefixRepr }
{}

/// One byte behind the second family.
pub fn trailing_byte()
    ensures { IsRefusedAlone (empty_family ++ empty_family ++ 0 ∷ []) TrailingBytes }
{}

/// The causes that the examples above do not show.
pub fn each_cause()
    ensures child_index { IsRefused (family (node 0 0 0 2 ∷ []) []) NodeListInconsistent }
    ensures data_index { IsRefused (family (node 0 0 5 1 ∷ []) []) DataListInconsistent }
    ensures empty_node { IsRefused (family (node 0 0x1 0 1 ∷ node 0 0 0 2 ∷ []) []) ContainsEmptyNode }
    ensures missing_node { IsRefused (family (node 0 0x3 0 1 ∷ node 0x1 0 0 3 ∷ []) (7 ∷ [])) NodeListTooShort }
    ensures missing_value { IsRefused (counted 1 1 (node 0x3 0 0 1 ∷ []) (7 ∷ [])) DataListTooShort }
    ensures unreferenced_value { IsRefused (family (node 0x1 0 0 1 ∷ []) (7 ∷ 7 ∷ [])) DataListTooLong }
    ensures refused_value { IsRefusedOneByte (counted 1 1 (node 0x1 0 0 1 ∷ []) [] ++ 2 ∷ empty_family) InvalidValue }
{}

/// Where two causes hold, the first of them is told.
pub fn first_of_two_causes()
    ensures both_indices { IsRefused (family (node 0 0 5 2 ∷ []) []) DataListInconsistent }
    ensures depth_and_indices { IsRefused (family (node 0x80000000 0 5 2 ∷ []) (7 ∷ [])) DepthExceedsPrefixRepr }
    ensures empty_and_indices { IsRefused (family (node 0 0x1 0 1 ∷ node 0 0 7 9 ∷ []) []) ContainsEmptyNode }
    ensures unreferenced_and_empty { IsRefused (family (node 0 0 0 1 ∷ node 0 0 0 1 ∷ []) []) NodeListTooLong }
    ensures too_many_and_cut_short { IsRefused (counted 1 0xffffffff (node 0x1 0 0 1 ∷ []) []) DataListTooLong }
    ensures too_few_and_cut_short { IsRefusedAlone (counted 1 1 (node 0x3 0 0 1 ∷ []) (7 ∷ [])) DataListTooShort }
{}

/// At 32 bits the deepest nodes stand at 30 bits and have keys of at most two bits more.
pub fn deepest_nodes()
    ensures fits { IsAccepted (family (chain (1 ∷ 2 ∷ 3 ∷ 4 ∷ 5 ∷ 6 ∷ []) ++ node 0x40 0 0 7 ∷ []) (7 ∷ [])) }
    ensures longer_key { IsRefused
        (family (chain (1 ∷ 2 ∷ 3 ∷ 4 ∷ 5 ∷ 6 ∷ []) ++ node 0x80 0 0 7 ∷ []) (7 ∷ [])) DepthExceedsPrefixRepr }
    ensures deeper_node { IsRefused
        (family (chain (1 ∷ 2 ∷ 3 ∷ 4 ∷ 5 ∷ 6 ∷ 7 ∷ []) ++ node 0x1 0 0 8 ∷ []) (7 ∷ [])) DepthExceedsPrefixRepr }
    ensures deeper_child { IsRefused (family (chain (1 ∷ 2 ∷ 3 ∷ 4 ∷ 5 ∷ 6 ∷ 7 ∷ [])) []) NodeListTooShort }
{}

/// Data bit `2^l - 1 + n` stands for the key of `l` bits with the number `n`, and child bit `n` for the five bits with the number `n`.
pub fn places_by_bit()
    ensures at_data_bits { map (λ s. 2 ^ length s - 1 + number s) data_places ≡ count_up 0 31 }
    ensures at_child_bits { map number child_places ≡ count_up 0 32 }
    ensures child_lengths { map length child_places ≡ map (λ (i : ℕ). 5) (count_up 0 32) }
{}
