//! What a desk's answer adds to the history.
ghost use Rattle.std.specs.Prelude.{◌≡◌, ℕ, List, All};
ghost use Rattle.stock_model.specs.declared.answers.Answer.{Answer};
ghost use Rattle.stock_model.specs.declared.deeds.Deed.{Deed};
ghost use Rattle.stock_model.specs.declared.requests.Request.{Request};
ghost use Rattle.session_laws.specs.Answers.{IsAnswer};
ghost use Rattle.session_laws.specs.Makers.{with_makers};

/// Whatever a desk's answer adds has the desk's number, which is what the lock asks of it.
pub fn a_desk_adds_its_own()
    ensures { (desk : ℕ) (history : List Deed) (request : Request) (answer : Answer) (kept : List Deed)
        → IsAnswer desk history request answer kept → All (λ e. e.0 ≡ desk) (with_makers kept) }
{}
