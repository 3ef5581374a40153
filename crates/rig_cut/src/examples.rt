//! Worked examples of which links are cut.
ghost use Rattle.std.specs.Prelude.{◌≡◌, [], ◌∷◌, map, true, false};
ghost use Rattle.rig_cut.specs.Links.{is_cut};
ghost use Rattle.rig_cut.specs.Examples.{chain_of_references, read_of_itself, closed_by_a_reference};

/// With 2 read by 1, 3 by 2, 1 by 3 and 3 by 1, the third is cut. A read of itself is cut. A reference from the end of
/// two inner links back to their start is cut, though it comes first.
pub fn which_links_are_cut()
    ensures chain { map (is_cut chain_of_references) chain_of_references ≡ false ∷ false ∷ true ∷ false ∷ [] }
    ensures itself { map (is_cut read_of_itself) read_of_itself ≡ true ∷ [] }
    ensures inner { map (is_cut closed_by_a_reference) closed_by_a_reference ≡ true ∷ false ∷ false ∷ [] }
{}
