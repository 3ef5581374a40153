//! What the definitions give on small graphs, each equation proved by computing it.
ghost use Rattle.std.specs.Prelude.{◌≡◌, ℕ, ◌+◌, ◌-◌, ◌≤◌, min, [], ◌∷◌, true, false, nat_eq};
ghost use Rattle.rig_cycles.specs.Cut.{IsEquality, leads_within, leads, cuts_from, kept_after};
ghost use Rattle.rig_cycles.specs.Pair.{is_cut_at, is_pair_cut};
ghost use Rattle.rig_cycles.specs.Walk.{IsAcyclic, IsRank, AreReadsOf};
ghost use Rattle.rig_cycles.specs.Depth.{IsClosed, reachable_count};
ghost use Rattle.rig_cycles.specs.Names.{arrow_map, TellsApart};
ghost use Rattle.rig_cycles.specs.Order.{IsTopologicalOrder};
ghost use Rattle.rig_cycles.specs.Examples.{reference, inner, chain, two_cycle, longest_at};

/// Along the reads of 2 by 1 and of 3 by 2, 1 leads to 3 by two reads, and 3 doesn't lead to 1. Each node leads to itself.
pub fn a_reader_leads_to_its_source()
    ensures two_reads { leads nat_eq chain 1 3 ≡ true }
    ensures one_is_too_few { leads_within nat_eq 1 chain 1 3 ≡ false }
    ensures not_back { leads nat_eq chain 3 1 ≡ false }
    ensures itself { leads nat_eq chain 2 2 ≡ true }
    ensures no_reads { leads nat_eq [] 2 2 ≡ true }
    ensures count_of_first { reachable_count nat_eq chain (1 ∷ 2 ∷ 3 ∷ []) 1 ≡ 3 }
    ensures count_of_last { reachable_count nat_eq chain (1 ∷ 2 ∷ 3 ∷ []) 3 ≡ 1 }
{}

/// Of the reads that close a cycle the last one is cut: of two, of three, a read of itself, and one that closes a cycle
/// with a read that is always kept.
pub fn the_read_that_closes_a_cycle_is_cut()
    ensures two { cuts_from nat_eq [] (reference 1 2 ∷ reference 2 1 ∷ []) ≡ reference 2 1 ∷ [] }
    ensures other_order { cuts_from nat_eq [] (reference 2 1 ∷ reference 1 2 ∷ []) ≡ reference 1 2 ∷ [] }
    ensures three { cuts_from nat_eq [] (reference 1 2 ∷ reference 2 3 ∷ reference 3 1 ∷ reference 1 3 ∷ []) ≡ reference 3 1 ∷ [] }
    ensures itself { cuts_from nat_eq [] (reference 1 1 ∷ []) ≡ reference 1 1 ∷ [] }
    ensures with_inner { cuts_from nat_eq chain (reference 3 1 ∷ reference 1 3 ∷ []) ≡ reference 3 1 ∷ [] }
    ensures kept_with_inner { kept_after nat_eq (inner 1 2 ∷ []) (reference 2 1 ∷ reference 2 3 ∷ []) ≡ inner 1 2 ∷ reference 2 3 ∷ [] }
{}

/// A node that is read in two ways is no cycle. A read that stands twice is cut twice. A cut read closes no cycle with
/// later ones.
pub fn what_closes_no_cycle_is_kept()
    ensures diamond { cuts_from nat_eq [] (reference 1 2 ∷ reference 1 3 ∷ reference 2 4 ∷ reference 3 4 ∷ []) ≡ [] }
    ensures twice_kept { cuts_from nat_eq [] (reference 1 2 ∷ reference 1 2 ∷ []) ≡ [] }
    ensures twice_cut { cuts_from nat_eq [] (reference 1 2 ∷ reference 2 1 ∷ reference 2 1 ∷ []) ≡ reference 2 1 ∷ reference 2 1 ∷ [] }
    ensures past_a_cut { cuts_from nat_eq [] (reference 1 2 ∷ reference 2 1 ∷ reference 3 2 ∷ reference 1 3 ∷ []) ≡ reference 2 1 ∷ [] }
{}

/// A read is cut at its test where the reads before it lead from its source to its reader, and has its pair among the
/// cuts then. The other direction is another pair.
pub fn a_cut_read_has_its_pair_among_the_cuts()
    ensures before { is_cut_at nat_eq [] (reference 1 2 ∷ []) (reference 2 1) ≡ true }
    ensures nothing_before { is_cut_at nat_eq [] [] (reference 2 1) ≡ false }
    ensures pair { is_pair_cut nat_eq [] (reference 1 2 ∷ reference 2 1 ∷ []) (reference 2 1) ≡ true }
    ensures other_pair { is_pair_cut nat_eq [] (reference 1 2 ∷ reference 2 1 ∷ []) (reference 1 2) ≡ false }
{}

/// A read between names keeps its direction, and whether it is a reference read.
pub fn a_read_between_names_is_of_the_same_kind()
    ensures inner_read { arrow_map (λ n. n + 10) (inner 1 2) ≡ inner 11 12 }
    ensures reference_read { arrow_map (λ n. n + 10) (reference 1 2) ≡ reference 11 12 }
{}

/// What the conditions of the laws say of a chain of two reads, between the nodes 1, 2 and 3.
pub fn a_chain_makes_no_cycle()
    ensures equality { IsEquality nat_eq }
    ensures acyclic { IsAcyclic chain }
    ensures rank { IsRank (λ n. 3 - n) chain }
    ensures reads_of { AreReadsOf (1 ∷ 2 ∷ 3 ∷ []) chain }
    ensures closed { IsClosed (1 ∷ 2 ∷ 3 ∷ []) chain }
    ensures last_node_is_closed { IsClosed (3 ∷ []) chain }
    ensures order { IsTopologicalOrder (1 ∷ 2 ∷ 3 ∷ []) chain (3 ∷ 2 ∷ 1 ∷ []) }
    ensures names { TellsApart (1 ∷ 2 ∷ []) nat_eq nat_eq (λ n. min n 2) }
{}

/// What they refuse: two nodes that read one another, a node that reads itself, a rank that rises, a node whose source is
/// missing, and an order with a reader before its source.
pub fn what_the_conditions_refuse()
    ensures two { IsAcyclic two_cycle → ⊥ }
    ensures itself { IsAcyclic (reference 1 1 ∷ []) → ⊥ }
    ensures rising { IsRank (λ n. n) chain → ⊥ }
    ensures level { IsRank (λ n. 0) chain → ⊥ }
    ensures not_closed { IsClosed (1 ∷ []) chain → ⊥ }
    ensures other_order { IsTopologicalOrder (1 ∷ 2 ∷ 3 ∷ []) chain (1 ∷ 2 ∷ 3 ∷ []) → ⊥ }
    ensures node_missing { IsTopologicalOrder (1 ∷ 2 ∷ 3 ∷ []) chain (3 ∷ 2 ∷ []) → ⊥ }
    ensures one_name { TellsApart (1 ∷ 2 ∷ []) nat_eq nat_eq (λ n. 0) → ⊥ }
{}

/// A value by recursion along reads that make no cycle is the same at each depth from the number of nodes on: the longest
/// walk from the first of three nodes has two reads.
pub fn a_depth_of_three_nodes_is_enough()
    ensures { (depth : ℕ) → 3 ≤ depth → longest_at chain depth 1 ≡ 2 }
{}
