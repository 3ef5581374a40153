//! Laws of walks and of the cut, over nodes of any type, with a test that tells which of them are one.
//!
//! The lemma behind each clause stands in `specs/`, under "what the proofs need", for the proofs of other crates.
ghost use Rattle.std.specs.Prelude.{◌≡◌, ◌⊎◌, ◌↔◌, ℕ, ◌<◌, ◌≤◌, ◌&&◌, ◌||◌, [], ◌∷◌, ◌++◌};
ghost use Rattle.std.specs.Prelude.{List, map, filter, length, Bool, not, Contains, IsTrue, IsFalse};
ghost use Rattle.std.specs.Bool.{Decides};
ghost use Rattle.rig_cycles.specs.Cut.{Arrow, IsEquality, leads_within, leads, closes_cycle, cuts_from, kept_after};
ghost use Rattle.rig_cycles.specs.Pair.{is_cut_at, is_pair_cut};
ghost use Rattle.rig_cycles.specs.Walk.{Walk, IsAcyclic, IsRank, IsPart, AreReadsOf};
ghost use Rattle.rig_cycles.specs.Depth.{IsClosed, reachable_count, IsByDepth, LooksAtSources};
ghost use Rattle.rig_cycles.specs.Names.{arrow_map, TellsApart};
ghost use Rattle.rig_cycles.specs.Order.{IsTopologicalOrder};

/// `leads` is true exactly where a walk is there, and so is `leads_within` with each bound that isn't below the number
/// of reads.
pub fn leads_where_a_walk_is_there<T>()
    ensures leads { (same : T → T → Bool) → IsEquality same →
        (reads : List (Arrow T)) (start end : T) → Decides (leads same reads start end) (Walk reads start end) }
    ensures larger_bound { (same : T → T → Bool) → IsEquality same →
        (bound : ℕ) (reads : List (Arrow T)) (start end : T) → length reads ≤ bound →
        Decides (leads_within same bound reads start end) (Walk reads start end) }
{}

/// A node that leads to another leads on to where that leads. What leads along some reads leads along more. Along one
/// read more, a node leads to what it led to before, and where it led to the reader, to what the source led to. Where the
/// sources of some nodes' reads are among these nodes, so is all that these nodes lead to.
pub fn leads_on_and_along_more_reads<T>()
    ensures on { (same : T → T → Bool) → IsEquality same →
        (reads : List (Arrow T)) (start middle end : T) → IsTrue (leads same reads start middle) →
        IsTrue (leads same reads middle end) → IsTrue (leads same reads start end) }
    ensures part { (same : T → T → Bool) → IsEquality same →
        (part whole : List (Arrow T)) → IsPart part whole → (start end : T) → IsTrue (leads same part start end) →
        IsTrue (leads same whole start end) }
    ensures closed { (same : T → T → Bool) → IsEquality same →
        (nodes : List T) (reads : List (Arrow T)) → IsClosed nodes reads → (start end : T) → Contains nodes start →
        IsTrue (leads same reads start end) → Contains nodes end }
    ensures one_more { (same : T → T → Bool) → IsEquality same →
        (reads : List (Arrow T)) (more : Arrow T) (start end : T) →
        leads same (reads ++ more ∷ []) start end ≡
        (leads same reads start end || leads same reads start more.reader && leads same reads more.source end) }
{}

/// Reads make no cycle exactly where a rank falls along each of them, from its reader to its source.
pub fn a_rank_falls_where_there_is_no_cycle<T>()
    ensures acyclic { (rank : T → ℕ) (reads : List (Arrow T)) → IsRank rank reads → IsAcyclic reads }
    ensures rank { (same : T → T → Bool) → IsEquality same →
        (reads : List (Arrow T)) → IsAcyclic reads → (rank : T → ℕ) × IsRank rank reads }
{}

/// Reads make no cycle exactly where their nodes have an order in which sources stand before their readers.
pub fn an_order_is_there_where_there_is_no_cycle<T>()
    ensures order { (same : T → T → Bool) → IsEquality same →
        (nodes : List T) (reads : List (Arrow T)) → IsClosed nodes reads → IsAcyclic reads →
        (order : List T) × IsTopologicalOrder nodes reads order }
    ensures acyclic { (same : T → T → Bool) → IsEquality same →
        (nodes : List T) (reads : List (Arrow T)) → AreReadsOf nodes reads → (order : List T) →
        IsTopologicalOrder nodes reads order → IsAcyclic reads }
{}

/// Where reads make no cycle, one more makes one exactly where it closes one: where its source leads to its reader.
pub fn a_read_makes_a_cycle_where_it_closes_one<T>()
    ensures { (same : T → T → Bool) → IsEquality same →
        (reads : List (Arrow T)) (more : Arrow T) → IsAcyclic reads →
        IsAcyclic (reads ++ more ∷ []) ↔ IsFalse (closes_cycle same reads more) }
{}

/// Where the reads that are always kept make no cycle, all that are kept in the end make none.
pub fn kept_reads_make_no_cycle<T>()
    ensures { (same : T → T → Bool) → IsEquality same →
        (kept rest : List (Arrow T)) → IsAcyclic kept → IsAcyclic (kept_after same kept rest) }
{}

/// Each read that is tested is kept or cut, and nothing else is. Where the reads that are always kept make no cycle, the
/// cuts are in order those that close a cycle with all that is kept in the end, and the others are kept.
pub fn each_read_is_kept_or_cut<T>()
    ensures tested { (same : T → T → Bool) (kept rest : List (Arrow T)) (read : Arrow T) → Contains rest read →
        Contains (kept_after same kept rest) read ⊎ Contains (cuts_from same kept rest) read }
    ensures kept_ones { (same : T → T → Bool) (kept rest : List (Arrow T)) (read : Arrow T) →
        Contains (kept_after same kept rest) read → Contains kept read ⊎ Contains rest read }
    ensures always_kept { (same : T → T → Bool) (kept rest : List (Arrow T)) → IsPart kept (kept_after same kept rest) }
    ensures cut_ones { (same : T → T → Bool) (kept rest : List (Arrow T)) → IsPart (cuts_from same kept rest) rest }
    ensures cuts { (same : T → T → Bool) → IsEquality same →
        (kept rest : List (Arrow T)) → IsAcyclic kept →
        cuts_from same kept rest ≡ filter (closes_cycle same (kept_after same kept rest)) rest }
    ensures kept { (same : T → T → Bool) → IsEquality same →
        (kept rest : List (Arrow T)) → IsAcyclic kept →
        kept_after same kept rest ≡ kept ++ filter (λ a. not (closes_cycle same (kept_after same kept rest) a)) rest }
{}

/// Where the reads that are always kept make no cycle, the reads of one source by one reader are all cut or all kept. So
/// whether a read is cut, and whether it is kept, is told by its source and reader among the cuts.
pub fn reads_of_one_pair_are_cut_alike<T>()
    ensures at_its_test { (same : T → T → Bool) → IsEquality same →
        (kept before after : List (Arrow T)) (read : Arrow T) → IsAcyclic kept →
        is_cut_at same kept before read ≡ is_pair_cut same kept (before ++ read ∷ after) read }
    ensures two { (same : T → T → Bool) → IsEquality same →
        (kept rest before after before_other after_other : List (Arrow T)) (read other : Arrow T) → IsAcyclic kept →
        rest ≡ before ++ read ∷ after → rest ≡ before_other ++ other ∷ after_other → read.source ≡ other.source →
        read.reader ≡ other.reader → is_cut_at same kept before read ≡ is_cut_at same kept before_other other }
    ensures kept_or_cut { (same : T → T → Bool) → IsEquality same →
        (kept rest : List (Arrow T)) (read : Arrow T) → IsAcyclic kept → Contains kept read ⊎ Contains rest read →
        Contains (kept_after same kept rest) read ↔ IsFalse (is_pair_cut same kept rest read) }
    ensures in_the_end { (same : T → T → Bool) → IsEquality same →
        (kept rest : List (Arrow T)) (read : Arrow T) → IsAcyclic kept → Contains rest read →
        is_pair_cut same kept rest read ≡ closes_cycle same (kept_after same kept rest) read }
{}

/// Where reads make no cycle, the number of nodes that a node leads to falls from the reader of a read to its source. It
/// is at most the number of nodes.
pub fn the_reachable_count_falls_along_reads<T>()
    ensures falls { (same : T → T → Bool) → IsEquality same →
        (nodes : List T) (reads : List (Arrow T)) → IsAcyclic reads → (read : Arrow T) → Contains reads read →
        Contains nodes read.reader →
        reachable_count same reads nodes read.source < reachable_count same reads nodes read.reader }
    ensures at_most { (same : T → T → Bool) (nodes : List T) (reads : List (Arrow T)) (node : T) →
        reachable_count same reads nodes node ≤ length nodes }
{}

/// Where reads make no cycle, a function by recursion to a depth, whose step looks only at the sources of a node's reads,
/// is the same at each depth that isn't below the number of nodes. There a step leaves it as it is, so that no depth is
/// left in what it says.
pub fn a_depth_of_the_number_of_nodes_is_enough<T, V>()
    ensures one_value { (same : T → T → Bool) → IsEquality same →
        (nodes : List T) (reads : List (Arrow T)) → IsAcyclic reads → IsClosed nodes reads →
        (step : T → (T → V) → V) (at : ℕ → T → V) → IsByDepth step at → LooksAtSources nodes reads step →
        (depth other : ℕ) (node : T) → Contains nodes node → length nodes ≤ depth → length nodes ≤ other →
        at depth node ≡ at other node }
    ensures by_step { (same : T → T → Bool) → IsEquality same →
        (nodes : List T) (reads : List (Arrow T)) → IsAcyclic reads → IsClosed nodes reads →
        (step : T → (T → V) → V) (at : ℕ → T → V) → IsByDepth step at → LooksAtSources nodes reads step →
        (depth : ℕ) (node : T) → Contains nodes node → length nodes ≤ depth → at depth node ≡ step node (at depth) }
{}

/// The cut of reads between the names of nodes, as numbers, is the cut of the reads, between names.
pub fn the_cut_of_names_is_the_cut<T, N>()
    ensures leads { (nodes : List T) (same : T → T → Bool) (same_name : N → N → Bool) (name : T → N) →
        TellsApart nodes same same_name name → (reads : List (Arrow T)) → AreReadsOf nodes reads → (start end : T) →
        Contains nodes start → Contains nodes end →
        leads same_name (map (arrow_map name) reads) (name start) (name end) ≡ leads same reads start end }
    ensures cuts { (nodes : List T) (same : T → T → Bool) (same_name : N → N → Bool) (name : T → N) →
        TellsApart nodes same same_name name → (kept rest : List (Arrow T)) → AreReadsOf nodes kept →
        AreReadsOf nodes rest →
        cuts_from same_name (map (arrow_map name) kept) (map (arrow_map name) rest) ≡
        map (arrow_map name) (cuts_from same kept rest) }
    ensures kept { (nodes : List T) (same : T → T → Bool) (same_name : N → N → Bool) (name : T → N) →
        TellsApart nodes same same_name name → (kept rest : List (Arrow T)) → AreReadsOf nodes kept →
        AreReadsOf nodes rest →
        kept_after same_name (map (arrow_map name) kept) (map (arrow_map name) rest) ≡
        map (arrow_map name) (kept_after same kept rest) }
{}
