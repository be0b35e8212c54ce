//! What follows from the definitions alone. The functions do nothing.
ghost use Rattle.std.specs.Prelude.{◌≡◌, ℕ, ◌≤◌, List, [], length};
ghost use Rattle.spin_base.specs.declared.chips.Chip.{Chip};
ghost use Rattle.spin_base.specs.declared.chips.Spot.{Spot};
ghost use Rattle.machine_desc.specs.Description.{Description};
ghost use Rattle.machine_desc.specs.Live.{IsLiveChip, live_count_of};
ghost use Rattle.link_detours.specs.Repair.{IsWalkTo};
ghost use Rattle.place_fit.specs.Placement.{HasNoRoom, IsPlacement};
ghost use Rattle.key_alloc.specs.KeyBlocks.{AreKeysOut};
ghost use Rattle.machine_desc.specs.declared.nets.NetPlan.{NetPlan};
ghost use Rattle.tern_word.specs.declared.tables.Row.{Row};
ghost use Rattle.net_tables.specs.PlainTable.{IsPlainTable};
ghost use Rattle.net_plans.specs.CutOffTargets.{IsFirstNetCutOff};
ghost use Rattle.job_gen.specs.Board.{generated_board};
ghost use Rattle.job_gen.specs.Generated.{gen_job};

/// The board of generated jobs has 48 live chips, and a walk of live links leads from each of them to each other.
pub fn the_board_is_joined()
    ensures chips { live_count_of generated_board ≡ 48 }
    ensures joined { (a b : Chip) → IsLiveChip generated_board a → IsLiveChip generated_board b
        → (walk : List Chip) × IsWalkTo generated_board a b walk }
{}

/// Whatever the number: the machine is the board; there are 200 vertices, 300 nets, and 1,200 packets, for all of which a queue
/// has room; no events are listed. And a chip's plain table has no more rows than there are nets, so at most 300.
pub fn generated_jobs_are_small()
    ensures machine { (n : ℕ) → (gen_job n).machine ≡ generated_board }
    ensures vertices { (n : ℕ) → length (gen_job n).graph.vertices ≡ 200 }
    ensures nets { (n : ℕ) → length (gen_job n).graph.nets ≡ 300 }
    ensures packets { (n : ℕ) → length (gen_job n).run.packets ≡ 1200 }
    ensures queue { (n : ℕ) → (gen_job n).run.queue ≡ length (gen_job n).run.packets }
    ensures events { (n : ℕ) → (gen_job n).run.events ≡ [] }
    ensures rows { (m : Description) (nets : List NetPlan) (c : Chip) (rows : List Row)
        → IsPlainTable m nets c rows → length rows ≤ length nets }
{}

/// Whatever the number: each vertex of the job finds room, each net finds keys, and no target is cut off.
pub fn generated_jobs_have_room()
    ensures room { (n i : ℕ) → HasNoRoom (gen_job n).machine (gen_job n).graph.vertices i → ⊥ }
    ensures keys { (n i : ℕ) → AreKeysOut (gen_job n).graph.nets i → ⊥ }
    ensures joined { (n i : ℕ) (spots : List Spot) (memory : List ℕ) (target : Chip)
        → IsPlacement (gen_job n).machine (gen_job n).graph.vertices spots memory
        → IsFirstNetCutOff (gen_job n).machine spots (gen_job n).graph.nets i target → ⊥ }
{}
