//! What follows from the definitions alone. The functions do nothing.
ghost use Rattle.std.specs.Prelude.{◌≡◌, ℕ, List, All, length};
ghost use Rattle.spin_base.specs.declared.chips.Chip.{Chip};
ghost use Rattle.spin_base.specs.declared.chips.Spot.{Spot};
ghost use Rattle.spin_base.specs.declared.blocks.Block.{Block};
ghost use Rattle.machine_desc.specs.Description.{Description};
ghost use Rattle.machine_desc.specs.Live.{IsSite};
ghost use Rattle.app_graph.specs.declared.graphs.Net.{Net};
ghost use Rattle.machine_desc.specs.declared.nets.NetPlan.{NetPlan};
ghost use Rattle.net_plans.specs.CutOffTargets.{IsFirstCutOffIn, IsFirstNetCutOff};
ghost use Rattle.net_plans.specs.NetPlans.{IsPlannedNet, ArePlanned};
ghost use Rattle.net_plans.specs.Targets.{AreTargets, AreTargetChips};

/// A net has one list of targets and one of target chips. At most one net and target of a graph are the first that are cut
/// off.
pub fn targets_are_determined()
    ensures one_list { (spots : List Spot) (vertices : List ℕ) (xs ys : List Spot)
        → AreTargets spots vertices xs → AreTargets spots vertices ys → xs ≡ ys }
    ensures one_list_of_chips { (m : Description) (root : Chip) (targets : List Spot)
        (xs ys : List Chip)
        → AreTargetChips m root targets xs → AreTargetChips m root targets ys → xs ≡ ys }
    ensures one_target { (m : Description) (spots : List Spot) (net : Net) (a b : Chip)
        → IsFirstCutOffIn m spots net a → IsFirstCutOffIn m spots net b → a ≡ b }
    ensures one_net { (m : Description) (spots : List Spot) (nets : List Net) (i j : ℕ) (a b : Chip)
        → IsFirstNetCutOff m spots nets i a → IsFirstNetCutOff m spots nets j b
        → (i ≡ j) × (a ≡ b) }
{}

/// A net whose source stands on a site has one plan, and nets have one list of plans. So the plans are the same in
/// whatever order, and by however many threads, they are made.
pub fn plans_are_determined()
    ensures one_plan { (m : Description) (spots : List Spot) (net : Net) (block : Block)
        (p q : NetPlan) → All (IsSite m) spots
        → IsPlannedNet m spots net block p → IsPlannedNet m spots net block q → p ≡ q }
    ensures one_list { (m : Description) (spots : List Spot) (nets : List Net) (blocks : List Block)
        (ps qs : List NetPlan) → All (IsSite m) spots → length blocks ≡ length nets
        → ArePlanned m spots nets blocks ps → ArePlanned m spots nets blocks qs → ps ≡ qs }
{}
