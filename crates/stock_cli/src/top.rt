//! The top call: what the words ask for, over an input, an output and notes.
ghost use Rattle.std.specs.Prelude.{◌≡◌, ◌≢◌, ◌+◌, ◌<◌, ◌≤◌, ◌⊎◌, ◌↔◌, ℕ, List};
ghost use Rattle.stock_nums.specs.declared.limits.TheConstants.{MAX_DESK};
ghost use Rattle.stock_io.specs.Counts.{NeverFalls};
ghost use Rattle.stock_io.specs.Listeners.{IsFresh};
ghost use Rattle.stock_keeper.specs.Keeping.{AsksAt, AsksAtMost};
ghost use Rattle.repost_worker.specs.Paces.{Pace, first_pace};
ghost use Rattle.stock_io.specs.Heard.{heard};
ghost use Rattle.desk_service.specs.Service.{AreServedBy};
ghost use Rattle.stock_words.specs.ServeWords.{Service};
ghost use Rattle.stock_words.specs.Words.{IsAudit, IsBatch, IsBatchOver, IsImport, IsLoad, IsServe};
ghost use Rattle.stock_ends.specs.declared.end.End.{End};
ghost use Rattle.stock_ends.specs.Statuses.{status_of, note_text, usage_text, WritesOrFails, TellsEnd, CountsNoFault};
ghost use Rattle.stock_batch.specs.Endings.{max_input};
ghost use Rattle.stock_batch.specs.Filed.{RunsOverShelf};
ghost use Rattle.stock_batch.specs.Ran.{Ran};
ghost use Rattle.sheet_io.specs.declared.taking.TheConstants.{MAX_SHEET};
ghost use Rattle.stock_import.specs.Imports.{ImportsOver};
ghost use Rattle.stock_audit.specs.Audits.{AuditsOverShelf};
ghost use Rattle.stock_load.specs.Loads.{IsLoaded};
ghost use Rattle.stock_serving.specs.Serving.{ServesOverShelf, ListensTo};

use std::alloc::Global;
use std::sync::Wait;
use std::thread::Threads;
use stock_audit::audited::audit_over;
use stock_batch::filed::run_over;
use stock_batch::running::run;
use stock_ends::notes::{other_words, tell, without_memory};
use stock_import::filed::import_over;
use stock_io::link::Link;
use stock_io::listener::Listener;
use stock_io::sink::Sink;
use stock_io::source::Source;
use stock_keeper::shelf::Shelf;
use stock_load::load::load;
use stock_serving::serving::{ServiceEnd, serve_over};
use stock_words::serve_words::ServeWords;
use stock_words::words::{Asked, WordsFault, asked_by};

/// What a run leaves: its status, and the listener.
#[derive(Drop)]
pub struct Finished<L> {
    pub status: u8,
    pub listener: L,
}

/// Does what the words ask for, and answers the status: 0, 2, 3, 4, 5, 6, 7, 8, 9 or 10. `batch` answers the lines of
/// the input on the output, and ends at the first fault of either; with a file over the ledger that the shelf has there, and
/// else over a new one that is kept nowhere. `import` posts the vouchers of the sheet that the input is into the ledger in a file,
/// and counts stock against what it holds; nothing is posted where the input is no sheet. `audit` writes the verdict on the tables in a
/// file. `load` answers a script of its own over a new ledger that is kept nowhere, and writes what the balance sums to then. `serve`
/// listens, serves each peer by a desk in a thread of its own over the ledger in a file, and writes how many records are covered and
/// accepted once all have ended. Other words have status 2. A status other than 0 is told by a line of the notes, whose own faults
/// change no status. It may wait where it serves desks, for peers and for the lock.
pub fn stockd<
    H: Shelf,
    P: Link,
    L: Listener<Peer = P> + Send + Drop,
    S: Source,
    O: Sink,
    N: Sink,
    R: Threads + Wait + Sync,
>(
    rt: &R,
    alloc: Global,
    words: &[String],
    shelf: &mut H,
    listener: L,
    input: &mut S,
    output: &mut O,
    notes: &mut N,
) -> Finished<L>

    // The words are no batch, no import, no audit, no load and no service exactly where the status is 2. Then nothing is taken or
    // written, and the usage is noted.
    ensures words { (result.status ≡ 2) ↔ ((IsBatch words.now → ⊥) × ((path : List ℕ) → IsBatchOver words.now path → ⊥)
        × ((path : List ℕ) → IsImport words.now path → ⊥) × ((path : List ℕ) → IsAudit words.now path → ⊥)
        × ((n : ℕ) → IsLoad words.now n → ⊥)
        × ((service : Service) → IsServe words.now service → ⊥)) }
    ensures nothing_taken { result.status ≡ 2 → input.new ≡ input.old }
    ensures nothing_written { result.status ≡ 2 → output.new ≡ output.old }
    ensures nothing_opened { (result.status ≡ 2) ⊎ IsBatch words.now → shelf.new ≡ shelf.old }
    ensures usage { result.status ≡ 2 → WritesOrFails N.written N.faults notes.old notes.new usage_text }

    // A batch ends in one of five ways, each with its status and its note: what was read and written then, and why.
    ensures run { IsBatch words.now → (end : End) × TellsEnd N.written N.faults notes.old notes.new result.status end
        × (last : Pace) × Ran S.left S.taken S.faults O.written O.faults input.old input.new output.old output.new first_pace last end }

    // So does one over a file that was opened, and its ledger is that of the run; or it could not be opened, and why.
    ensures over { (path : List ℕ) → IsBatchOver words.now path → (end : End)
        × TellsEnd N.written N.faults notes.old notes.new result.status end
        × RunsOverShelf H.Kept.tells H.tells H.plan H.faults H.kept_faults S.left S.taken S.faults O.written O.faults
        shelf.old shelf.new input.old input.new output.old output.new end }

    // An import takes the input whole. Where that is no sheet its first fault is written and the shelf stays; else the vouchers are
    // imported into the ledger of the file, one after another, and it is settled; or it could not be opened, and why.
    ensures import { (path : List ℕ) → IsImport words.now path → (end : End)
        × TellsEnd N.written N.faults notes.old notes.new result.status end
        × ImportsOver H.Kept.tells H.tells H.plan H.faults H.kept_faults S.left S.taken S.faults O.written O.faults
        shelf.old shelf.new input.old input.new output.old output.new end }

    // An audit loads the tables of the ledger in the file, and writes the verdict on them; or it could not load them, and why. It takes
    // nothing from the input.
    ensures audit { (path : List ℕ) → IsAudit words.now path → (end : End)
        × TellsEnd N.written N.faults notes.old notes.new result.status end
        × AuditsOverShelf H.Kept.tells H.tells H.plan H.faults H.kept_faults O.written O.faults
        shelf.old shelf.new output.old output.new end }
    ensures audit_takes_nothing { (path : List ℕ) → IsAudit words.now path → input.new ≡ input.old }

    // A load writes the summary of its script, or for want of memory nothing, or where the output fails a front of it. It takes
    // nothing from the input, and the shelf stays.
    ensures load { (n : ℕ) → IsLoad words.now n → (end : End)
        × TellsEnd N.written N.faults notes.old notes.new result.status end
        × IsLoaded O.written O.faults output.old output.new n end }
    ensures load_takes_nothing { (n : ℕ) → IsLoad words.now n → input.new ≡ input.old }
    ensures load_opens_nothing { (n : ℕ) → IsLoad words.now n → shelf.new ≡ shelf.old }

    // A service serves desks over a file that was opened, settles, and writes how many records are covered and accepted; or an end
    // comes before, and why. It takes nothing from the input. Nothing else listens.
    ensures serve { (service : Service) → IsServe words.now service → (end : End)
        × TellsEnd N.written N.faults notes.old notes.new result.status end
        × ServesOverShelf H.Kept.tells H.tells H.plan H.faults H.kept_faults
        (heard L.waiting L.hung_up L.accepts L.hang_ups L.faults) O.written O.faults
        (AreServedBy P.left P.taken P.written P.Source.faults P.ended)
        (IsFresh P.taken P.written P.Source.faults P.ended) service.desks service.connections
        shelf.old shelf.new listener result.listener output.old output.new end }
    ensures serve_takes_nothing { (service : Service) → IsServe words.now service → input.new ≡ input.old }
    ensures nothing_heard { ((service : Service) → IsServe words.now service → ⊥) → result.listener ≡ listener }

    // A run, an import, an audit or a service over a file asks the shelf for one keeper, at the path of its words, and a service listens
    // to the port of its words, with the limit of silence that they say; unless an end came before.
    ensures over_opens { (path : List ℕ) → IsBatchOver words.now path → AsksAtMost H.opened H.openings path shelf.old shelf.new }
    ensures import_opens { (path : List ℕ) → IsImport words.now path → AsksAtMost H.opened H.openings path shelf.old shelf.new }
    ensures audit_opens { (path : List ℕ) → IsAudit words.now path → AsksAtMost H.opened H.openings path shelf.old shelf.new }
    ensures serve_opens { (service : Service) → IsServe words.now service
        → AsksAtMost H.opened H.openings service.path shelf.old shelf.new }
    ensures serve_listens { (service : Service) → IsServe words.now service
        → ListensTo L.listens_to L.accepts service.port service.idle listener result.listener }

    // Without a fault, and with fewer bytes than are too many, only want of memory keeps it from being done.
    ensures complete { IsBatch words.now
        → CountsNoFault (S.faults input.old) (S.faults input.new)
        → CountsNoFault (O.faults output.old) (O.faults output.new)
        → S.taken input.new < S.taken input.old + max_input
        → (result.status ≡ 0) ⊎ (result.status ≡ 3) }

    // So it is over a file, where the shelf and its keeper had no fault either, but for tables that are none of a ledger.
    ensures complete_over { (path : List ℕ) → IsBatchOver words.now path
        → CountsNoFault (S.faults input.old) (S.faults input.new)
        → CountsNoFault (O.faults output.old) (O.faults output.new)
        → CountsNoFault (H.faults shelf.old) (H.faults shelf.new)
        → CountsNoFault 0 (H.kept_faults shelf.new)
        → S.taken input.new < S.taken input.old + max_input
        → (result.status ≡ 0) ⊎ (result.status ≡ 3) ⊎ (result.status ≡ 7) }

    // And so is an import, where the input may be no sheet.
    ensures complete_import { (path : List ℕ) → IsImport words.now path
        → CountsNoFault (S.faults input.old) (S.faults input.new)
        → CountsNoFault (O.faults output.old) (O.faults output.new)
        → CountsNoFault (H.faults shelf.old) (H.faults shelf.new)
        → CountsNoFault 0 (H.kept_faults shelf.new)
        → S.taken input.new < S.taken input.old + MAX_SHEET
        → (result.status ≡ 0) ⊎ (result.status ≡ 3) ⊎ (result.status ≡ 7) ⊎ (result.status ≡ 10) }

    // And an audit, which takes no input.
    ensures complete_audit { (path : List ℕ) → IsAudit words.now path
        → CountsNoFault (O.faults output.old) (O.faults output.new)
        → CountsNoFault (H.faults shelf.old) (H.faults shelf.new)
        → CountsNoFault 0 (H.kept_faults shelf.new)
        → (result.status ≡ 0) ⊎ (result.status ≡ 3) ⊎ (result.status ≡ 7) }

    // So it is of a load, where the output had no fault.
    ensures complete_load { (n : ℕ) → IsLoad words.now n → CountsNoFault (O.faults output.old) (O.faults output.new)
        → (result.status ≡ 0) ⊎ (result.status ≡ 3) }

    // And of a service, where neither the listener, the output, the shelf nor its keeper had a fault.
    ensures complete_serve { (service : Service) → IsServe words.now service
        → CountsNoFault (H.faults shelf.old) (H.faults shelf.new)
        → CountsNoFault 0 (H.kept_faults shelf.new)
        → CountsNoFault (L.faults listener) (L.faults result.listener)
        → CountsNoFault (O.faults output.old) (O.faults output.new)
        → (result.status ≡ 0) ⊎ (result.status ≡ 3) ⊎ (result.status ≡ 7) }

    // The line of the status is noted, or a front of it where the notes fail. Status 0 has none.
    ensures noted { (result.status ≡ 2 → ⊥) → (end : End) × (result.status ≡ status_of end)
        × WritesOrFails N.written N.faults notes.old notes.new (note_text end) }
    ensures silent { result.status ≡ 0 → notes.new ≡ notes.old }
    ensures notes_never_fall { NeverFalls (N.faults notes.old) (N.faults notes.new) }
{
    match asked_by(alloc, words) {
        Ok(Asked::Batch) => {
            let end = run(alloc, input, output);
            let status = tell(alloc, notes, end);
            Finished { status, listener }
        }
        Ok(Asked::BatchOver(path)) => {
            let end = run_over(alloc, shelf, path, input, output);
            let status = tell(alloc, notes, end);
            Finished { status, listener }
        }
        Ok(Asked::ImportInto(path)) => {
            let end = import_over(alloc, shelf, path, input, output);
            let status = tell(alloc, notes, end);
            Finished { status, listener }
        }
        Ok(Asked::AuditOf(path)) => {
            let end = audit_over(alloc, shelf, path, output);
            let status = tell(alloc, notes, end);
            Finished { status, listener }
        }
        Ok(Asked::Load(count)) => {
            let end = load(alloc, count, output);
            let status = tell(alloc, notes, end);
            Finished { status, listener }
        }
        Ok(Asked::Serve(asked)) => { serve_asked(rt, alloc, asked, shelf, listener, output, notes) }
        Err(WordsFault::Unknown) => {
            let status = other_words(notes);
            Finished { status, listener }
        }
        Err(WordsFault::NoMemory) => {
            let status = without_memory(notes);
            Finished { status, listener }
        }
    }
}

// Serves the desks that are asked for, and tells how that ended.
fn serve_asked<
    H: Shelf,
    P: Link,
    L: Listener<Peer = P> + Send + Drop,
    O: Sink,
    N: Sink,
    R: Threads + Wait + Sync,
>(
    rt: &R,
    alloc: Global,
    asked: ServeWords<'_>,
    shelf: &mut H,
    listener: L,
    output: &mut O,
    notes: &mut N,
) -> Finished<L>
    requires desks { (0 < asked.desks) × (asked.desks ≤ MAX_DESK) }
    requires connections { asked.desks ≤ asked.connections }
    ensures serves { (end : End) × TellsEnd N.written N.faults notes.old notes.new result.status end
        × ServesOverShelf H.Kept.tells H.tells H.plan H.faults H.kept_faults
        (heard L.waiting L.hung_up L.accepts L.hang_ups L.faults) O.written O.faults
        (AreServedBy P.left P.taken P.written P.Source.faults P.ended)
        (IsFresh P.taken P.written P.Source.faults P.ended) asked.entry.desks asked.entry.connections
        shelf.old shelf.new listener result.listener output.old output.new end }
    ensures opens { AsksAt H.opened H.openings asked.entry.path.now shelf.old shelf.new }
    ensures listens { ListensTo L.listens_to L.accepts asked.entry.port asked.entry.idle listener result.listener }
    ensures complete { CountsNoFault (H.faults shelf.old) (H.faults shelf.new)
        → CountsNoFault 0 (H.kept_faults shelf.new)
        → CountsNoFault (L.faults listener) (L.faults result.listener)
        → CountsNoFault (O.faults output.old) (O.faults output.new)
        → (result.status ≡ 0) ⊎ (result.status ≡ 3) ⊎ (result.status ≡ 7) }
    ensures served { result.status ≢ 2 }
    ensures silent { result.status ≡ 0 → notes.new ≡ notes.old }
    ensures notes_never_fall { NeverFalls (N.faults notes.old) (N.faults notes.new) }
{
    let ServiceEnd { end, listener } = serve_over(
        rt,
        alloc,
        shelf,
        listener,
        asked.path,
        asked.port,
        asked.idle,
        asked.desks,
        asked.connections,
        output,
    );
    Finished {
        status: tell(alloc, notes, end),
        listener,
    }
}
