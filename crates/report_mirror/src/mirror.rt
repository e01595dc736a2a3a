//! A mirror: who shows generations there, and readers of them.
ghost use Rattle.std.specs.Prelude.{◌≡◌, ◌^◌, ◌<◌, [], All, vec_len, IsErr, OnOk, OnErr, IfOk};
ghost use Rattle.turn_lock.specs.Histories.{BeginsWith};

use crate::generation::Generation;
use crate::reader::MirrorReader;
use crate::shown::{Grows, Seen, Sees, Shown};
use left_right::reader::Factory;
use left_right::writer::Writer;
use std::alloc::Global;
use std::marker::Model;
use std::sync::{Arc, Wait};
use stock_nums::memory::NoMemory;

/// Who shows generations. Contracts see the records of the one that is shown. It is ended by `end`.
pub struct MirrorWriter {
    writer: Writer<Shown, Arc<Generation>, Seen, Grows>,
}

impl Model for MirrorWriter {
    ghost use Rattle.std.specs.Prelude.{List};
    ghost use Rattle.stock_model.specs.declared.records.Record.{Record};

    ghost Value = { List Record };

    ghost view = { λ mirror. mirror.writer.desk.shown.value };
}

/// A mirror that shows a generation, and readers that have read nothing.
pub struct Mirror {
    pub writer: MirrorWriter,
    pub readers: Vec<MirrorReader>,
}

/// What showing a generation left.
pub struct Showed {
    pub writer: MirrorWriter,
    pub result: Result<(), NoMemory>,
}

/// A mirror that shows this generation to so many readers.
///
/// # Errors
///
/// `NoMemory`: memory was wanting.
pub fn show_to<R: Wait>(
    rt: &R,
    alloc: Global,
    first: Generation,
    readers: usize,
) -> Result<Mirror, NoMemory>
    requires readers { (0 < readers) × (readers < 2 ^ 32) }
    ensures shown { IfOk result (λ made. made.writer ≡ first) }
    ensures readers { IfOk result (λ made. vec_len made.readers ≡ readers) }
    ensures nothing_read { IfOk result (λ made. All (λ reader. reader ≡ []) made.readers.items) }
{
    let generation = Arc::new(alloc, first)?;
    let spare = Shown {
        generation: Arc::try_clone(&generation)?,
    };
    let writer = Writer::new(alloc, Shown { generation }, spare, readers)?;
    match readers_of(alloc, writer.factory(), readers) {
        Ok(readers) => Ok(Mirror {
            writer: MirrorWriter { writer },
            readers,
        }),
        Err(NoMemory) => {
            writer.take(rt);
            Err(NoMemory)
        }
    }
}

// So many readers that have read nothing. The only error is want of memory.
fn readers_of(
    alloc: Global,
    factory: &Factory<Shown, Seen, Grows>,
    count: usize,
) -> Result<Vec<MirrorReader>, NoMemory>
    ensures len { IfOk result (λ readers. vec_len readers ≡ count) }
    ensures nothing_read { IfOk result (λ readers. All (λ reader. reader ≡ []) readers.items) }
{
    let mut readers = Vec::new(alloc);
    for _ in 0..count {
        readers.push(MirrorReader {
            reader: factory.reader()?,
        })?;
    }
    Ok(readers)
}

impl MirrorWriter {
    /// The generation that is shown.
    pub fn shown(&self) -> &Generation
        ensures { result.now ≡ self.now }
    {
        &self.writer.published().generation
    }

    /// Shows this generation from now on, which begins with the one that is shown. It waits for who still reads the one before that.
    ///
    /// # Errors
    ///
    /// `NoMemory`: memory was wanting, and the one that was shown is shown still.
    pub fn show<R: Wait>(self, rt: &R, alloc: Global, next: Generation) -> Showed
        requires { BeginsWith next self }
        ensures shown { OnOk result.result (result.writer ≡ next) }
        ensures unchanged { OnErr result.result (result.writer ≡ self) }
    {
        let MirrorWriter { mut writer } = self;
        let Ok(next) = Arc::new(alloc, next) else {
            return refused(writer);
        };
        if let Err(_) = writer.append(next) {
            return refused(writer);
        }
        match writer.publish_as::<Sees, R>(rt) {
            (writer, Ok(())) => Showed {
                writer: MirrorWriter { writer },
                result: Ok(()),
            },
            (writer, Err(_)) => refused(writer),
        }
    }

    /// Ends the mirror, once nobody reads any more. It waits for who still does.
    pub fn end<R: Wait>(self, rt: &R) {
        let MirrorWriter { writer } = self;
        writer.take(rt);
    }
}

// Nothing was shown, for want of memory.
fn refused(writer: Writer<Shown, Arc<Generation>, Seen, Grows>) -> Showed
    ensures unchanged { result.writer ≡ writer.desk.shown.value }
    ensures refused { IsErr result.result }
{
    Showed {
        writer: MirrorWriter { writer },
        result: Err(NoMemory),
    }
}
