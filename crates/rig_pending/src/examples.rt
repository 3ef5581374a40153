//! A trace that is in order and one that isn't, of two operations of which the second needs the first.
ghost use Rattle.std.specs.Prelude.{◌≡◌, [], ◌∷◌};
ghost use Rattle.rig_pending.specs.declared.mark.Mark.TheVariants.{Start, Finish};
ghost use Rattle.rig_pending.specs.Ordered.{IsOrdered};

/// Operation 1 needs operation 0, and starts behind its finish.
pub fn an_operation_starts_behind_its_source()
    ensures { IsOrdered (λ n source. (n ≡ 1) × (source ≡ 0)) (0 ∷ 1 ∷ []) (Start 0 ∷ Finish 0 ∷ Start 1 ∷ Finish 1 ∷ []) }
{}

/// A trace in which it starts before that isn't in order.
pub fn an_operation_that_starts_too_early()
    ensures { IsOrdered (λ n source. (n ≡ 1) × (source ≡ 0)) (0 ∷ 1 ∷ []) (Start 0 ∷ Start 1 ∷ Finish 0 ∷ Finish 1 ∷ []) → ⊥ }
{}
