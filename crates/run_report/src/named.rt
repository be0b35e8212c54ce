// Deliveries with the names of their vertices.
ghost use Rattle.std.specs.Prelude.{◌≡◌, length};

use spin_base::{Delivery, Name, Seq, Spot};
use std::marker::Model;

/// Deliveries, of which contracts see the name of the vertex and the copy. A name stands once, and not with each delivery.
#[derive(Drop)]
pub struct NamedDeliveries {
    pub(crate) placed: Seq<(Name, Spot)>,
    pub(crate) deliveries: Vec<Delivery>,
}

impl Model for NamedDeliveries {
    ghost use Rattle.std.specs.Prelude.{ℕ, List, map};
    ghost use Rattle.spin_base.specs.declared.copies.McCopy.{McCopy};
    ghost use Rattle.run_report.specs.Named.{named_delivery};

    ghost Value = { List (List ℕ × McCopy) };

    ghost view = { λ d. map (named_delivery d.placed) d.deliveries.items };
}

impl NamedDeliveries {
    /// How many there are.
    pub fn len(&self) -> usize
        ensures { result ≡ length self.now }
    {
        self.deliveries.len()
    }
}
