// All the bytes of a list, to a sink.
ghost use Rattle.std.specs.Prelude.{◌≡◌, ◌<◌, ◌≤◌, OnOk, OnErr};
ghost use Rattle.spin_base.specs.Outside.{FaultsRose, Takes, TakesProperPrefix};

use crate::outside::Sink;
use crate::wants::Failed;

/// Why not all bytes were written: a write failed.
#[derive(Clone, Copy)]
pub enum WriteErr {
    Fault,
}

/// Writes all the bytes in order. After a fault a proper prefix of them was written. It takes no memory.
pub fn write_all<K: Sink>(sink: &mut K, bytes: &[u8]) -> Result<(), WriteErr>
    ensures all { OnOk result (Takes (K.written sink.old) bytes.now (K.written sink.new)) }
    ensures part { OnErr result (TakesProperPrefix (K.written sink.old) bytes.now
        (K.written sink.new)) }
    ensures fault { OnErr result (FaultsRose (K.faults sink.old) (K.faults sink.new)) }
    ensures counted { K.faults sink.old ≤ K.faults sink.new }
{
    let mut done = 0;
    while done < bytes.len() {
        match sink.write(&bytes[done..]) {
            Ok(count) => done += count,
            Err(Failed) => return Err(WriteErr::Fault),
        }
    }
    Ok(())
}
