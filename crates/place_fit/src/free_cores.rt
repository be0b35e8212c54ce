// The cores of a machine that are free, on which graphs are placed one after another.
ghost use Rattle.std.specs.Prelude.{◌≡◌, ◌≢◌, ◌+◌, ◌≤◌, length, All, AllPairs, IfOk, IfErr, None, OnOk, OnErr, vec_capacity, vec_len};
ghost use Rattle.machine_desc.specs.Description.{Description};
ghost use Rattle.app_graph.specs.declared.graphs.Vertex.{Vertex as AVertex};
ghost use Rattle.app_graph.specs.ValidGraph.{IsValidGraph};
ghost use Rattle.place_fit.specs.Boards.{AreFreeOn, AreOthersKept, IsWith, IsWithout};
ghost use Rattle.place_fit.specs.Cause.{IsPlacementCause};
ghost use Rattle.place_fit.specs.Placement.{IsPlacement};
ghost use Rattle.place_fit.specs.Standing.{ArePlaced, CanPutAll};

use crate::boards::Board;
use crate::placing::{PlaceErr, Placement};
use app_graph::{Graph, Vertex};
use machine_desc::Machine;
use spin_base::{Memory, Seq, Spot};
use std::alloc::Global;
use std::marker::Model;

/// The cores that are free: at first those that are usable on a machine, then without those of the graphs that are placed. Each chip has
/// all its memory for each graph.
#[derive(Drop)]
pub struct FreeCores {
    board: Board,
}

impl Model for FreeCores {
    ghost use Rattle.place_fit.specs.declared.boards.Board.{Board};

    ghost Value = { Board };

    ghost use Rattle.place_fit.specs.Standing.{board_of, IsWhole};

    ghost view = { board_of };

    ghost invariant = { IsWhole };
}

impl FreeCores {
    /// The usable cores of a machine. It takes time and memory as the machine.
    ///
    /// # Errors
    ///
    /// `Memory` where memory runs out.
    pub fn of(alloc: Global, machine: &Machine) -> Result<FreeCores, Memory>
        ensures { IfOk result (AreFreeOn machine.now) }
    {
        let board = Board::whole(alloc, machine)?;
        Ok(FreeCores { board })
    }

    /// Places the vertices of a graph without devices, as `place` does on a machine that has these cores. Its cores are then free no
    /// more; after a refusal all are free that were. It takes time as the graph, and as the logarithm of the chips for each vertex.
    ///
    /// # Errors
    ///
    /// `NoRoom` exactly where some vertex finds no room, with the first; `Memory` where memory runs out.
    pub fn place(&mut self, alloc: Global, graph: &Graph) -> Result<Placement, PlaceErr>
        requires valid { IsValidGraph graph.now }
        requires cores { All (λ (v : AVertex). v.device ≡ None) graph.now.vertices }
        ensures placed { (m : Description) → AreFreeOn m self.old → IfOk result
            (λ p. IsPlacement m graph.now.vertices p.spots p.memory) }
        ensures no_room { (m : Description) → AreFreeOn m self.old → IfErr result
            (IsPlacementCause m graph.now.vertices) }
        ensures different { (m : Description) → AreFreeOn m self.old → IfOk result
            (λ p. AllPairs (λ a b. a ≢ b) p.spots) }
        ensures taken { (m n : Description) → AreFreeOn m self.old → IfOk result
            (λ p. IsWithout p.spots m n → AreFreeOn n self.new) }
        ensures refused { (m : Description) → AreFreeOn m self.old
            → OnErr result (AreFreeOn m self.new) }
    {
        let mut spots = Vec::new(alloc);
        let mut memory = Vec::new(alloc);
        match put_all(
            &mut self.board,
            graph.vertices.as_slice(),
            &mut spots,
            &mut memory,
        ) {
            Ok(()) => {
                self.board.settle(&spots);
                Ok(Placement {
                    spots: Seq::from_vec(spots),
                    memory: Seq::from_vec(memory),
                })
            }
            Err(e) => {
                self.board.give(&spots);
                Err(e)
            }
        }
    }

    /// These cores are free again. It takes no memory, and the logarithm of the chips for each.
    pub fn give(&mut self, spots: &[Spot])
        ensures { (m n : Description) → AreFreeOn m self.old → IsWith spots.now m n
            → AreFreeOn n self.new }
    {
        self.board.give(spots);
    }
}

// Puts all these vertices on a board. Their spots, and where their memories begin, come into two lists.
fn put_all(
    board: &mut Board,
    vertices: &[Vertex],
    spots: &mut Vec<Spot>,
    memory: &mut Vec<u64>,
) -> Result<(), PlaceErr>
    requires { CanPutAll board.old vertices.now spots.old.items memory.old.items }
    ensures placed { (m : Description) → AreFreeOn m board.old → ArePlaced m vertices.now
        spots.new.items memory.new.items board.new }
    ensures kept { AreOthersKept spots.new.items board.old board.new }
    ensures all { OnOk result (length spots.new.items ≡ length vertices.now) }
    ensures why { (m : Description) → AreFreeOn m board.old → IfErr result
        (IsPlacementCause m vertices.now) }
{
    for (i, vertex) in vertices.iter().enumerate() {
        reserve_one(spots, memory)?;
        let Some(placed) = board.put_on_core(vertex) else {
            return Err(PlaceErr::NoRoom { vertex: i as u32 });
        };
        spots.push_reserved(placed.spot);
        memory.push_reserved(placed.memory);
    }
    Ok(())
}

// Makes room for one more in both lists.
fn reserve_one(spots: &mut Vec<Spot>, memory: &mut Vec<u64>) -> Result<(), Memory>
    ensures spots { spots.new.items ≡ spots.old.items }
    ensures memory { memory.new.items ≡ memory.old.items }
    ensures spot_room { OnOk result (vec_len spots.new + 1 ≤ vec_capacity spots.new) }
    ensures memory_room { OnOk result (vec_len memory.new + 1 ≤ vec_capacity memory.new) }
{
    spots.reserve(1)?;
    memory.reserve(1)?;
    Ok(())
}
