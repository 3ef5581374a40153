//! What holds of a scene's in-links as reads between its operations, before it is known which of them are cut: they are cut as
//! the reads between its quantities are, under whatever numbers the operations have. Those that are cut are the cut reads.
ghost use Rattle.std.specs.Prelude.{◌≡◌, ◌<◌, ℕ, ◌&&◌, map, length, nat_eq, true, IsTrue, Contains, All};
ghost use Rattle.rig_cycles.specs.Cut.{cuts_from};
ghost use Rattle.rig_cycles.specs.Names.{arrow_map};
ghost use Rattle.rig_cycles.specs.Pair.{is_pair_cut};
ghost use Rattle.rig_cycles.specs.Walk.{IsAcyclic, AreReadsOf};
ghost use Rattle.rig_scene.specs.declared.operation.OpId.{OpId};
ghost use Rattle.rig_scene.specs.Cut.{cuts};
ghost use Rattle.rig_scene.specs.Operations.{operations, operation_of, ins};
ghost use Rattle.rig_scene.specs.Scene.{SceneRecord};
ghost use Rattle.rig_scene.specs.WellFormed.{is_scene};
ghost use Rattle.rig_laws.specs.Kept.{cut_links};
ghost use Rattle.rig_laws.specs.LinkArrows.{reference_link, link_arrows, scene_arrows, inner_links, reference_links, IsNaming};

/// The in-links of an operation are its links as reads, in order. One is cut where it is a reference one and its source and
/// reader are among the cuts of all of these reads, by the numbers of the operations.
pub fn links_are_cut_as_reads()
    ensures { (s : SceneRecord) → IsTrue (is_scene s) → (name : OpId → ℕ) → IsNaming s name →
        (op : OpId) → Contains (operations s) op →
        map (λ a. record {
          op = a.source;
          cut = a.is_reference
              && is_pair_cut nat_eq (map (arrow_map name) (inner_links s)) (map (arrow_map name) (reference_links s)) (arrow_map name a);
        }) (link_arrows s op) ≡ ins s op }
{}

/// Inner links make no cycle, and neither do they between the numbers of the operations.
pub fn inner_links_make_no_cycle()
    ensures links { (s : SceneRecord) → IsTrue (is_scene s) → IsAcyclic (inner_links s) }
    ensures names { (s : SceneRecord) → IsTrue (is_scene s) → (name : OpId → ℕ) → IsNaming s name →
        IsAcyclic (map (arrow_map name) (inner_links s)) }
{}

/// The links that are cut, between the numbers of the operations, are the cut reads, in order.
pub fn the_cuts_of_links_are_those_of_reads()
    ensures { (s : SceneRecord) → IsTrue (is_scene s) → (name : OpId → ℕ) → IsNaming s name →
        cuts_from nat_eq (map (arrow_map name) (inner_links s)) (map (arrow_map name) (reference_links s)) ≡
        map (λ c. record { reader = name (operation_of c.reader); source = name (operation_of c.source); is_reference = true }) (cuts s) }
{}

/// The in-links that are cut are the cut reads, in order, each as a link between the operations that stand for its ends.
pub fn the_cut_links_are_the_cut_reads()
    ensures { (s : SceneRecord) → IsTrue (is_scene s) →
        cut_links s ≡ map (λ c. reference_link (operation_of c.reader) (operation_of c.source)) (cuts s) }
{}

/// The links of a scene's operations are between its operations, and each operation is the reader of its own.
pub fn links_are_between_operations()
    ensures ends { (s : SceneRecord) → IsTrue (is_scene s) → AreReadsOf (operations s) (scene_arrows s) }
    ensures readers { (s : SceneRecord) → (op : OpId) → All (λ a. a.reader ≡ op) (link_arrows s op) }
{}

/// The number of links takes 18 bits, as that of in-links does.
pub fn links_as_reads_are_few()
    ensures { (s : SceneRecord) → IsTrue (is_scene s) → length (scene_arrows s) < 262144 }
{}
