//! How a session with a mirror goes on, and what it means to a peer.
ghost use Rattle.std.specs.Prelude.{◌≡◌, ℕ, ◌≤◌, max, List, [], ◌∷◌, ◌++◌, length};
ghost use Rattle.turn_lock.specs.Histories.{BeginsWith, past, made_by};
ghost use Rattle.stock_model.specs.History.{covered_records};
ghost use Rattle.stock_model.specs.Reports.{need_of};
ghost use Rattle.stock_model.specs.declared.deeds.Deed.{Deed};
ghost use Rattle.stock_model.specs.declared.queries.Query.{Query};
ghost use Rattle.session_laws.specs.Exchanges.{Exchange};
ghost use Rattle.session_laws.specs.Makers.{with_makers};
ghost use Rattle.session_laws.specs.Sessions.{Session};
ghost use Rattle.mirrored_sessions.specs.Steps.{Step, printed_in, reading_step, turned_step};
ghost use Rattle.mirrored_sessions.specs.Sessions.{Known, MirroredSession, MirroredServed};

/// A session begins with no step, and goes on by others from where it stands.
pub fn mirrored_sessions_go_on()
    ensures none { (desk : ℕ) (known : Known) → MirroredSession desk known known [] }
    ensures on { (desk : ℕ) (old mid new : Known) (a b : List Step)
        → MirroredSession desk old mid a → MirroredSession desk mid new b → MirroredSession desk old new (a ++ b) }
{}

/// One step is a session: an exchange that is one without a mirror, whatever was read besides; or a report that was read from the
/// mirror, which takes no turn at the lock.
pub fn a_step_is_a_session()
    ensures turned { (desk : ℕ) (old new : Known) (exchange : Exchange)
        → Session desk old.view new.view (exchange ∷ []) → BeginsWith new.read old.read
        → max old.printed (printed_in exchange.answer) ≤ new.printed → MirroredSession desk old new (turned_step exchange ∷ []) }
    ensures read { (desk : ℕ) (old new : Known) (query : Query)
        → new.view ≡ old.view → BeginsWith new.read old.read → (need_of query).0 ≤ length new.read → old.printed ≤ length new.read
        → new.printed ≡ length new.read → MirroredSession desk old new (reading_step query new.read ∷ []) }
{}

/// A session serves its peer by the lock's whole history: by the same premises as without a mirror, and where the final history covers
/// what was read last.
pub fn a_mirrored_session_is_served()
    ensures { (desk : ℕ) (first final : List Deed) (old new : Known) (steps : List Step)
        → MirroredSession desk old new steps → BeginsWith old.view.seen (with_makers first)
        → BeginsWith (with_makers final) new.view.seen
        → new.view.made ≡ old.view.made ++ made_by desk (past (with_makers first) (with_makers final))
        → BeginsWith (covered_records final) new.read → MirroredServed desk first final steps }
{}
