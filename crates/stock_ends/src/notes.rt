//! The line that notes how a run ended, and its status.
ghost use Rattle.std.specs.Prelude.{◌≡◌, ◌≢◌};
ghost use Rattle.stock_io.specs.Counts.{NeverFalls};
ghost use Rattle.stock_ends.specs.Statuses.{status_of, note_text, usage_text, IsNote, WritesOrFails, TellsEnd};

use crate::damage::{Damage, damage_note};
use crate::end::End;
use std::alloc::Global;
use stock_io::sink::{Sink, write_all};

/// What is noted where the words are none that the program knows.
const USAGE: &str =
    "stockd: words: batch [--file P] | serve --file P --port N --desks D | load N | import --file P | audit --file P\n";

/// What is noted where memory is wanting.
const MEMORY: &str = "stockd: memory\n";

/// Notes which words the program knows, and answers the status of other words, 2.
pub fn other_words<N: Sink>(notes: &mut N) -> u8
    ensures status { result ≡ 2 }
    ensures noted { WritesOrFails N.written N.faults notes.old notes.new usage_text }
    ensures never_falls { NeverFalls (N.faults notes.old) (N.faults notes.new) }
{
    note(notes, USAGE.as_bytes());
    2
}

/// Notes that memory was wanting, before the words were known or while they were read, and answers the status of that, 3.
pub fn without_memory<N: Sink>(notes: &mut N) -> u8
    ensures status { result ≡ status_of End.NoMemory }
    ensures noted { WritesOrFails N.written N.faults notes.old notes.new (note_text End.NoMemory) }
    ensures never_falls { NeverFalls (N.faults notes.old) (N.faults notes.new) }
{
    note(notes, MEMORY.as_bytes());
    status_of(End::NoMemory)
}

/// Notes how a run ended, unless it is done, and answers its status. Where memory is wanting for a note, it ended for that.
pub fn tell<N: Sink>(alloc: Global, notes: &mut N, end: End) -> u8
    ensures told { TellsEnd N.written N.faults notes.old notes.new result end }
    ensures silent { result ≡ 0 → notes.new ≡ notes.old }
    ensures never_falls { NeverFalls (N.faults notes.old) (N.faults notes.new) }
{
    match end {
        End::Done => 0,
        End::Damaged(damage) => tell_damage(alloc, notes, &damage),
        _ => {
            note(notes, note_of(end).as_bytes());
            status_of(end)
        }
    }
}

/// Notes a damage, and answers its status; or notes that memory was wanting for that, and answers the status of that.
fn tell_damage<N: Sink>(alloc: Global, notes: &mut N, damage: &Damage) -> u8
    ensures told { TellsEnd N.written N.faults notes.old notes.new result (End.Damaged damage.now) }
    ensures some { result ≢ 0 }
    ensures never_falls { NeverFalls (N.faults notes.old) (N.faults notes.new) }
{
    let Ok(text) = damage_note(alloc, damage) else {
        return without_memory(notes);
    };
    note(notes, text.as_slice());
    status_of(End::Damaged(*damage))
}

/// The line that notes an end, but for a damage, of which the line is made.
fn note_of(end: End) -> &'static str
    ensures { IsNote end result.now }
{
    match end {
        End::Done | End::Damaged(_) => "",
        End::NoMemory => MEMORY,
        End::ReadFailed => "stockd: read failed\n",
        End::WriteFailed => "stockd: write failed\n",
        End::TooLong => "stockd: input too long\n",
        End::StoreFailed => "stockd: store failed\n",
        End::ListenFailed => "stockd: listen failed\n",
        End::BadSheet => "stockd: sheet\n",
    }
}

/// Writes a line to the notes. Whatever comes of it changes no status.
fn note<N: Sink>(notes: &mut N, text: &[u8])
    ensures noted { WritesOrFails N.written N.faults notes.old notes.new text.now }
    ensures never_falls { NeverFalls (N.faults notes.old) (N.faults notes.new) }
{
    let _ = write_all(notes, text);
}

fn status_of(end: End) -> u8
    ensures { result ≡ status_of end }
{
    match end {
        End::Done => 0,
        End::NoMemory => 3,
        End::ReadFailed => 4,
        End::WriteFailed => 5,
        End::TooLong => 8,
        End::StoreFailed => 6,
        End::ListenFailed => 9,
        End::BadSheet => 10,
        End::Damaged(_) => 7,
    }
}
