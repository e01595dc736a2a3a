//! A mirror's writer that may cross to a thread.
ghost use Rattle.std.specs.Prelude.{◌≡◌};

use report_mirror::mirror::MirrorWriter;
use std::sync::Wait;

/// Who shows, with what it waits with. A thread may take only what can be let go: where this is, its mirror ends.
pub struct EndingWriter<W: Wait + Drop> {
    pub waits: W,
    pub writer: MirrorWriter,
}

impl<W: Wait + Drop> Drop for EndingWriter<W> {
    fn drop(self) {
        let Self { waits, writer } = self;
        writer.end(&waits);
    }
}

impl<W: Wait + Drop> EndingWriter<W> {
    /// Who shows, and what it waits with.
    pub fn into_parts(self) -> (W, MirrorWriter)
        ensures { result.1 ≡ self.writer }
    {
        let Self { waits, writer } = self;
        (waits, writer)
    }
}
