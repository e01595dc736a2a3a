//! Readers of a mirror that end.
ghost use Rattle.std.specs.Prelude.{All};
ghost use Rattle.turn_lock.specs.Histories.{BeginsWith};

use report_mirror::mirror::MirrorWriter;
use report_mirror::reader::MirrorReader;
use std::sync::Wait;

/// Lets each reader read what is shown last, which begins with all that it read before. It may wait for who still shows.
pub fn meet_all<R: Wait>(rt: &R, mut readers: Vec<MirrorReader>, writer: &MirrorWriter)
    ensures { All (λ read. BeginsWith writer.now read) readers.items }
{
    match readers.pop() {
        None => {}
        Some(reader) => {
            reader.meet(rt, writer);
            meet_all(rt, readers, writer);
        }
    }
}
