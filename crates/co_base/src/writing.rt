//! A whole text into a sink.
ghost use Rattle.std.specs.Prelude.{◌≤◌, OnOk, OnErr};
ghost use Rattle.co_base.specs.Streams.{Rose, Took, TookPart};

use crate::names::WriteFault;
use crate::streams::Sink;

/// Offers the rest in each call until all is taken. No memory is taken.
pub fn write_all<K: Sink>(sink: &mut K, bytes: &[u8]) -> Result<(), WriteFault>
    ensures taken { OnOk result (Took (K.held sink.old) (K.held sink.new) bytes.now) }
    ensures fault { OnErr result (Rose (K.faults sink.old) (K.faults sink.new)) }
    ensures part { OnErr result (TookPart bytes.now (K.held sink.old) (K.held sink.new)) }
    ensures rises { K.faults sink.old ≤ K.faults sink.new }
{
    let mut done = 0usize;
    while done < bytes.len() {
        let (_, rest) = bytes.split_at(done);
        match sink.write(rest) {
            Err(_) | Ok(0) => return Err(WriteFault),
            Ok(n) => done += n,
        }
    }
    Ok(())
}
