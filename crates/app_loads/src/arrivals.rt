// Where packets came.
ghost use Rattle.std.specs.Prelude.{◌≡◌, ◌∷◌, [], IfOk, OnErr, length, true};
ghost use Rattle.app_loads.specs.Arriving.{HasArrived};

use spin_base::{Memory, Seq};
use std::alloc::Global;
use std::marker::Model;
use std::rc::Rc;

// Where a copy came, and how many routers it had passed.
#[derive(Clone, Copy)]
pub struct Arrival {
    pub vertex: u32,
    pub hop: u32,
}

// A list of arrivals, which several groups may hold together.
#[derive(Drop)]
pub struct Arrivals {
    list: Rc<Seq<Arrival>>,
}

impl Model for Arrivals {
    ghost use Rattle.std.specs.Prelude.{List};
    ghost use Rattle.app_loads.specs.declared.arrivals.Arrival.{Arrival};

    ghost Value = { List Arrival };

    ghost view = { λ a. a.list.value };
}

impl Arrivals {
    // One alone.
    pub(crate) fn of(alloc: Global, arrival: Arrival) -> Result<Arrivals, Memory>
        ensures { IfOk result (λ arrivals. arrivals ≡ arrival ∷ []) }
    {
        let mut list = Seq::new(alloc);
        list.push(arrival)?;
        let list = Rc::new(alloc, list)?;
        Ok(Arrivals { list })
    }

    // How many there are.
    pub(crate) fn len(&self) -> usize
        ensures { result ≡ length self.now }
    {
        self.list.len()
    }

    // All, in order.
    pub(crate) fn as_slice(&self) -> &[Arrival]
        ensures { result.now ≡ self.now }
    {
        self.list.as_slice()
    }

    // Puts one at the back, where no other holds the list too.
    pub(crate) fn push(&mut self, arrival: Arrival) -> Result<bool, Memory>
        ensures put { IfOk result (λ put. HasArrived put arrival self.old self.new) }
        ensures refused { OnErr result (self.new ≡ self.old) }
    {
        let Some(list) = Rc::get_mut(&mut self.list) else {
            return Ok(false);
        };
        list.push(arrival)?;
        Ok(true)
    }

    // The same list, held once more.
    pub(crate) fn share(&self) -> Result<Arrivals, Memory>
        ensures { IfOk result (λ arrivals. arrivals ≡ self.now) }
    {
        let list = self.list.clone()?;
        Ok(Arrivals { list })
    }

    // Whether another list has the same, where one is not answered no for nothing.
    pub(crate) fn are_same(&self, others: &Arrivals) -> bool
        ensures { result ≡ true → others.now ≡ self.now }
    {
        are_same(self.as_slice(), others.as_slice())
    }
}

// Whether both lists have the same places.
fn are_same(arrivals: &[Arrival], others: &[Arrival]) -> bool
    ensures { result ≡ true → others.now ≡ arrivals.now }
{
    arrivals.len() == others.len() && arrivals.iter().zip(others).all(|(a, b)| is_same(*a, *b))
}

fn is_same(a: Arrival, b: Arrival) -> bool
    ensures { result ≡ true → b ≡ a }
{
    a.vertex == b.vertex && a.hop == b.hop
}
