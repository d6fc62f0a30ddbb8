//! A text is written in as many calls as the sink wants.
ghost use Rattle.std.specs.Prelude.{OnOk, OnErr, IsErrOf};
ghost use Rattle.dcx_host.specs.Faults.{Rose};
ghost use Rattle.dcx_host.specs.Pieces.{WritesWhole, WritesFront};

use crate::{Sink, SinkFault};

/// Hands the sink the whole rest at each call. After an `Err` a front is written, and something is left.
pub fn write_all<K: Sink>(text: &[u8], sink: &mut K) -> Result<(), SinkFault>
    ensures ok { OnOk result (WritesWhole (K.written sink.old) (K.written sink.new) (K.handed sink.old) (K.handed sink.new) text.now) }
    ensures err { OnErr result (WritesFront (K.written sink.old) (K.written sink.new) (K.handed sink.old) (K.handed sink.new) text.now) }
    ensures failed { IsErrOf result SinkFault.Failed → Rose (K.faults sink.old) (K.faults sink.new) }
{
    let mut done = 0;
    while done < text.len() {
        done += sink.write(&text[done..])?;
    }
    Ok(())
}
