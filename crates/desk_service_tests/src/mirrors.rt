//! A mirror of a book, with one reader of it.
ghost use Rattle.std.specs.Prelude.{◌≡◌, IfSome};
ghost use Rattle.stock_model.specs.History.{covered_records};

use generation_book::book::Book;
use mirrored_worker::next_generation::first_generation;
use report_mirror::mirror::{Mirror, MirrorWriter, show_to};
use report_mirror::reader::MirrorReader;
use std::alloc::Global;
use std::sync::Wait;
use stock_keeper::keeper::Keeper;

/// Who shows, and who reads.
pub struct Mirrors {
    pub writer: MirrorWriter,
    pub reader: MirrorReader,
}

/// A mirror that shows what the book covers; none where memory is wanting.
pub fn mirror_of<K: Keeper, R: Wait>(rt: &R, alloc: Global, book: &Book<K>) -> Option<Mirrors>
    ensures { IfSome result (λ made. made.writer ≡ covered_records book.now.history) }
{
    let Ok(first) = first_generation(alloc, book) else {
        return None;
    };
    let Ok(
        Mirror {
            writer,
            mut readers,
        },
    ) = show_to(rt, alloc, first, 1)
    else {
        return None;
    };
    match readers.pop() {
        Some(reader) => Some(Mirrors { writer, reader }),
        None => {
            writer.end(rt);
            None
        }
    }
}

/// Who shows, with what it waits with. A thread may take only what can be let go: where this is, its mirror ends.
pub struct EndingWriter<'a, R: Wait> {
    rt: &'a R,
    pub writer: MirrorWriter,
}

impl<'a, R: Wait> Drop for EndingWriter<'a, R> {
    fn drop(self) {
        let Self { rt, writer } = self;
        writer.end(rt);
    }
}

impl<'a, R: Wait> EndingWriter<'a, R> {
    /// Who shows, with what it waits with.
    pub fn new(rt: &'a R, writer: MirrorWriter) -> EndingWriter<'a, R>
        ensures { result.writer ≡ writer }
    {
        EndingWriter { rt, writer }
    }

    /// Who shows.
    pub fn into_writer(self) -> MirrorWriter
        ensures { result ≡ self.entry.writer }
    {
        let Self { rt: _, writer } = self;
        writer
    }
}
