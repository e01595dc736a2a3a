//! What holds of the peers that a desk serves one after another. None of it runs: these are facts about definitions, with their
//! proofs.
ghost use Rattle.std.specs.Prelude.{◌≡◌, ℕ, List, ◌++◌, All, AllPairs};
ghost use Rattle.turn_lock.specs.Histories.{BeginsWith, past, made_by};
ghost use Rattle.stock_model.specs.History.{covered_records};
ghost use Rattle.stock_model.specs.declared.deeds.Deed.{Deed};
ghost use Rattle.session_laws.specs.Makers.{with_makers};
ghost use Rattle.session_laws.specs.Sessions.{Session, Served};
ghost use Rattle.mirrored_sessions.specs.Steps.{Step, turned_in, IsReading, AreNoFewer};
ghost use Rattle.desk_connections.specs.Visits.{Learnt, Remembers, Visit, IsVisit, Lead, AreSessions, all_steps};

use stock_io::link::Link;

/// Each peer of a desk was served by it, a later one by a desk that knew all that it had known as an earlier one's session ended.
pub fn peers_are_served_in_turn<P: Link>()
    ensures each { (desk : ℕ) (old new : Learnt) (visits : List (Visit P))
        → Lead (IsVisit P.left P.taken P.written P.Source.faults P.ended desk) old new visits
        → All (IsVisit P.left P.taken P.written P.Source.faults P.ended desk) visits }
    ensures in_turn { (desk : ℕ) (old new : Learnt) (visits : List (Visit P))
        → Lead (IsVisit P.left P.taken P.written P.Source.faults P.ended desk) old new visits
        → AllPairs (λ earlier later. Remembers later.old earlier.new) visits }
{}

/// Whatever steps make the sessions of a desk's visits: the exchanges of all together are one session of the desk, and serve its peers
/// by the lock's whole history. What the desk's pass knew at first begins with the first history, the final one begins with what the
/// pass knows then, and of what was added since, the pass made what has the desk's number. What was read from the mirror is covered by
/// the final history, where that covers what was read last; and to no peer a report said less to be covered than an answer before.
pub fn all_sessions_are_served<P: Link>()
    ensures session { (desk : ℕ) (old new : Learnt) (visits : List (Visit P)) (sessions : List (List Step))
        → Lead (IsVisit P.left P.taken P.written P.Source.faults P.ended desk) old new visits → AreSessions desk visits sessions
        → Session desk old.view new.view (turned_in (all_steps sessions)) }
    ensures served { (desk : ℕ) (first final : List Deed) (old new : Learnt) (visits : List (Visit P)) (sessions : List (List Step))
        → Lead (IsVisit P.left P.taken P.written P.Source.faults P.ended desk) old new visits → AreSessions desk visits sessions
        → BeginsWith old.view.seen (with_makers first) → BeginsWith (with_makers final) new.view.seen
        → new.view.made ≡ old.view.made ++ made_by desk (past (with_makers first) (with_makers final))
        → Served desk first final (turned_in (all_steps sessions)) }
    ensures readings { (desk : ℕ) (final : List Deed) (old new : Learnt) (visits : List (Visit P)) (sessions : List (List Step))
        → Lead (IsVisit P.left P.taken P.written P.Source.faults P.ended desk) old new visits → AreSessions desk visits sessions
        → BeginsWith (covered_records final) new.read → All (IsReading (covered_records final)) (all_steps sessions) }
    ensures no_fewer { (desk : ℕ) (visits : List (Visit P)) (sessions : List (List Step))
        → AreSessions desk visits sessions → All (AreNoFewer 0) sessions }
{}
