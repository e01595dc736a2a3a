//! What a session means to a peer, by the whole history.
ghost use Rattle.std.specs.Prelude.{◌≡◌, ℕ, List, [], ◌++◌, AllPairs, Contains};
ghost use Rattle.turn_lock.specs.Histories.{BeginsWith, past, made_by};
ghost use Rattle.turn_lock.specs.declared.view.View.{View};
ghost use Rattle.stock_nums.specs.declared.numbers.RecordNo.{RecordNo};
ghost use Rattle.stock_model.specs.PostReplies.{TellsStoreFailed};
ghost use Rattle.stock_model.specs.declared.answers.Answer.TheVariants.{Told};
ghost use Rattle.stock_model.specs.declared.deeds.Deed.{Deed};
ghost use Rattle.stock_model.specs.declared.replies.Reply.TheVariants.{Accepted};
ghost use Rattle.session_laws.specs.Exchanges.{Exchange, IsBefore};
ghost use Rattle.session_laws.specs.Makers.{with_makers};
ghost use Rattle.session_laws.specs.Sentences.{IsToRequest, AcceptsNone, AsksToPost, IsAcceptedAs, IsAnsweredOn};
ghost use Rattle.session_laws.specs.Sessions.{Session, Served};

/// A session at a lock serves its peer by the lock's whole history. What its pass knew at first begins with the first history,
/// the final one begins with what the pass knows then, and of what was added since, the pass made what has the desk's number.
pub fn a_session_is_served()
    ensures { (desk : ℕ) (first final : List Deed) (old new : View Deed) (exchanges : List Exchange)
        → Session desk old new exchanges → BeginsWith old.seen (with_makers first) → BeginsWith (with_makers final) new.seen
        → new.made ≡ old.made ++ made_by desk (past (with_makers first) (with_makers final))
        → Served desk first final exchanges }
{}

/// What a peer may read off each answer.
pub fn answers_are_of_the_history()
    // Unless the answer tells that the body is no request, or that memory was wanting, it is by the history at a stop.
    ensures answered { (desk : ℕ) (first final : List Deed) (exchanges : List Exchange) (exchange : Exchange)
        → Served desk first final exchanges → Contains exchanges exchange
        → IsToRequest exchange.answer → IsAnsweredOn desk first final exchange }

    // A record that was accepted had no fault there, is numbered by its place, and stands in the final history.
    ensures accepted { (desk : ℕ) (first final : List Deed) (exchanges : List Exchange) (exchange : Exchange) (n : RecordNo)
        → Served desk first final exchanges → Contains exchanges exchange
        → exchange.answer ≡ Told (Accepted n) [] → IsAcceptedAs desk first final exchange n }

    // Whatever else was answered, nothing was kept.
    ensures nothing_kept { (desk : ℕ) (first final : List Deed) (exchanges : List Exchange) (exchange : Exchange)
        → Served desk first final exchanges → Contains exchanges exchange
        → AcceptsNone exchange.answer → exchange.kept ≡ [] }

    // Only a post is told that what keeps the records failed.
    ensures store_failed { (desk : ℕ) (first final : List Deed) (exchanges : List Exchange) (exchange : Exchange)
        → Served desk first final exchanges → Contains exchanges exchange
        → TellsStoreFailed exchange.answer → AsksToPost exchange }

    // Each later answer is by a history that has what was kept earlier.
    ensures in_order { (desk : ℕ) (first final : List Deed) (exchanges : List Exchange)
        → Served desk first final exchanges → AllPairs IsBefore exchanges }
{}
