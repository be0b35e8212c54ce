// What follows from the definitions alone. The function does nothing.
ghost use Rattle.std.specs.Prelude.{◌≡◌, ℕ, List};
ghost use Rattle.machine_desc.specs.Description.{Description};
ghost use Rattle.machine_desc.specs.declared.nets.NetPlan.{NetPlan};
ghost use Rattle.net_tables.specs.PlainTable.{AreRoutedApart};
ghost use Rattle.default_routes.specs.declared.stripping.Final.{Final};
ghost use Rattle.table_load.specs.declared.tables.Image.{Image};
ghost use Rattle.plan_check.specs.declared.verdicts.Verdict.TheVariants.{Right};
ghost use Rattle.plan_check.specs.MadeImages.{IsImageOf};
ghost use Rattle.plan_check.specs.Verdicts.{IsVerdict};

/// An image that has the entries of the final tables of nets gets the verdict `Right` with these nets: each key of a net
/// gets its route by one row, inside which the net's block lies, or no row meets the block and default routing does it.
pub fn made_images_are_right()
    ensures { (m : Description) (nets : List NetPlan) (target : ℕ) (finals : List Final) (v : Image)
        → AreRoutedApart m nets → IsImageOf m nets target finals v → IsVerdict m nets v Right }
{}
