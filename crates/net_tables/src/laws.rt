// What follows from the definitions alone. The functions do nothing.
ghost use Rattle.std.specs.Prelude.{◌≡◌, ◌<◌, List, All};
ghost use Rattle.std.specs.List.{AllZip};
ghost use Rattle.spin_base.specs.declared.chips.Chip.{Chip};
ghost use Rattle.spin_base.specs.declared.chips.Port.{Port};
ghost use Rattle.spin_base.specs.declared.chips.Spot.{Spot};
ghost use Rattle.machine_desc.specs.declared.trees.Edge.{Edge};
ghost use Rattle.machine_desc.specs.Description.{Description};
ghost use Rattle.machine_desc.specs.RoutingTree.{IsRoutingTree};
ghost use Rattle.machine_desc.specs.declared.nets.NetPlan.{NetPlan};
ghost use Rattle.machine_desc.specs.Outputs.{ComesIn};
ghost use Rattle.tern_word.specs.declared.tables.Row.{Row};
ghost use Rattle.tern_word.specs.declared.tables.Table.{Table};
ghost use Rattle.net_tables.specs.declared.marks.Mark.{Mark};
ghost use Rattle.net_tables.specs.PlainTable.{AreRoutedApart, ArePlainTables, IsPlainTable};
ghost use Rattle.net_tables.specs.Marks.{AreBlocksOf, IsTableOf};

/// Nets have one plain table at a chip: the packets of a net come in at one port there, and no two rows stand at one
/// place of the order. Each row has an output, since a tree ends at targets alone.
pub fn plain_tables_are_determined()
    ensures one_port { (m : Description) (root : Chip) (edges : List Edge) (targets : List Spot)
        → IsRoutingTree m root edges targets
        → (c : Chip) (p q : Port) → ComesIn m root edges c p → ComesIn m root edges c q → p ≡ q }
    ensures one_table { (m : Description) (nets : List NetPlan) → AreRoutedApart m nets
        → (c : Chip) (xs ys : List Row) → IsPlainTable m nets c xs → IsPlainTable m nets c ys
        → xs ≡ ys }
    ensures some_output { (m : Description) (nets : List NetPlan) → AreRoutedApart m nets
        → (c : Chip) (rows : List Row) → IsPlainTable m nets c rows
        → All (λ r. 0 < r.route.bits) rows }
{}

/// Tables with a row for each original block of their chip are the plain tables of the nets, and right for them.
pub fn tables_of_original_blocks_are_plain()
    ensures { (m : Description) (nets : List NetPlan) (lists : List (List Mark))
        (tables : List Table) → AreRoutedApart m nets → AreBlocksOf m nets lists
        → AllZip IsTableOf lists tables → ArePlainTables m nets tables }
{}
