//! Texts to a sink.

ghost use Rattle.std.specs.Prelude.{◌≡◌, ◌+◌, ◌≤◌, ◌<◌, OnOk, OnErr, length};
ghost use Rattle.prta_outside.specs.Sink.{HasRisen};
ghost use Rattle.prta_writer.specs.Writing.{Took, TookPart, TookAllBut};

use prta_outside::{Sink, SinkFault};
use prta_report::{LINE, Page};

/// Puts the text to the sink, piece by piece until all of it is taken. No empty piece is put, and none after a fault.
pub fn put_all<K: Sink>(sink: &mut K, text: &[u8]) -> Result<(), SinkFault>
    ensures whole { OnOk result (Took (K.taken sink.old) (K.taken sink.new) text.now) }
    ensures fault { OnErr result (HasRisen (K.faults sink.old) (K.faults sink.new)) }
    ensures part { OnErr result (TookPart (K.taken sink.old) (K.taken sink.new) text.now) }
    ensures never_falls { K.faults sink.old ≤ K.faults sink.new }
{
    let mut taken = 0;
    while taken < text.len() {
        match sink.put(&text[taken..]) {
            Ok(n) => taken += n,
            Err(fault) => return Err(fault),
        }
    }
    Ok(())
}

/// Makes room for a line: where the page has less, it is put to the sink and emptied.
pub fn make_room<K: Sink>(page: &mut Page, sink: &mut K) -> Result<(), SinkFault>
    requires { LINE ≤ length page.old.written + page.old.spare }
    ensures room { OnOk result (LINE ≤ page.new.spare) }
    ensures stays { LINE ≤ page.old.spare → (page.new ≡ page.old) × (sink.new ≡ sink.old) }
    ensures took { OnOk result (TookAllBut (K.taken sink.old) (K.taken sink.new) page.old.written page.new.written) }
    ensures fault { OnErr result (HasRisen (K.faults sink.old) (K.faults sink.new)) }
    ensures part { OnErr result (TookPart (K.taken sink.old) (K.taken sink.new) page.old.written) }
    ensures size { length page.new.written + page.new.spare ≡ length page.old.written + page.old.spare }
    ensures never_falls { K.faults sink.old ≤ K.faults sink.new }
{
    if page.spare() >= LINE {
        return Ok(());
    }
    put_all(sink, page.bytes())?;
    page.clear();
    Ok(())
}
