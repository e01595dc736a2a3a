//! How a session begins and goes on.
ghost use Rattle.std.specs.Prelude.{ℕ, List, [], ◌∷◌, ◌++◌};
ghost use Rattle.turn_lock.specs.declared.view.View.{View};
ghost use Rattle.stock_model.specs.declared.deeds.Deed.{Deed};
ghost use Rattle.stock_model.specs.declared.requests.Request.{Request};
ghost use Rattle.session_laws.specs.Exchanges.{Exchange};
ghost use Rattle.session_laws.specs.Sessions.{Session};
ghost use Rattle.session_laws.specs.Turns.{IsTurn, IsQuiet};

/// A session begins with no exchange, and goes on by another one from where it stands.
pub fn sessions_go_on()
    ensures none { (desk : ℕ) (pass : View Deed) → Session desk pass pass [] }
    ensures on { (desk : ℕ) (old mid new : View Deed) (a b : List Exchange)
        → Session desk old mid a → Session desk mid new b → Session desk old new (a ++ b) }
{}

/// One exchange is a session: it takes one turn at the lock, or it takes none and leaves what the pass knows.
pub fn an_exchange_is_a_session()
    ensures turn { (desk : ℕ) (old new : View Deed) (request : Request) (exchange : Exchange)
        → IsTurn desk old new request exchange → Session desk old new (exchange ∷ []) }
    ensures quiet { (desk : ℕ) (pass : View Deed) (exchange : Exchange)
        → IsQuiet exchange → Session desk pass pass (exchange ∷ []) }
{}
