//! Laws of the definitions in specs/: each is the contract of a function that does nothing.
ghost use Rattle.std.specs.Prelude.{◌≡◌, ℕ, List, [], length};
ghost use Rattle.ssu_ir.specs.Tree.{Label};
ghost use Rattle.place_plan.specs.Costs.{cost};
ghost use Rattle.place_plan.specs.Plan.{Plan};
ghost use Rattle.place_plan.specs.Weighted.{labels_weighted, weighted_cost};

/// Where each label weighs 1, the cost is that of the placement.
pub fn no_weights_are_ones()
    ensures { (labels : List Label) (p : Plan) → weighted_cost labels [] p ≡ cost labels p }
{}

/// The cost under weights is that in each label times its weight, over all labels.
pub fn weights_go_by_labels()
    ensures { (labels : List Label) (ws : List ℕ) (p : Plan) → weighted_cost labels ws p ≡ labels_weighted labels ws p 0 (length labels) }
{}
