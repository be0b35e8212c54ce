// Values that threads may share.
use crate::blocks::ChipTable;
use crate::copies::{Delivery, DumpRec, McCopy};
use crate::fifos::Fifo;
use crate::lists::Seq;
use crate::names::Name;
use crate::rooms::Room;

/// A value that may be handed to another thread, and lent to several. Its `impl` stands in the type's own crate, so that a change
/// by which the type may no longer be is refused there, and not first where threads are started.
pub trait Shared: Send + Sync {}

impl Shared for McCopy {}

impl Shared for Delivery {}

impl Shared for DumpRec {}

impl Shared for ChipTable {}

impl Shared for Name {}

impl<T: Send + Sync> Shared for Seq<T> {}

impl<T: Send + Sync> Shared for Fifo<T> {}

impl<T: Send + Sync> Shared for Room<T> {}
