//! What the calls of a frontier make of it, as the laws of a revaluation say it.
ghost use Rattle.std.specs.Prelude.{◌≡◌, ◌≢◌, true, false, List, Option, Some, None, map, filter, not, Contains};
ghost use Rattle.std.specs.List.{find};
ghost use Rattle.stock_nums.specs.declared.entry.Entry.{Entry};
ghost use Rattle.stock_nums.specs.declared.place.Place.{Place};
ghost use Rattle.stock_model.specs.InOrder.{IsInPostingOrder};
ghost use Rattle.stock_model.specs.PostingOrder.{put};
ghost use Rattle.cost_links.specs.declared.values.Valued.{Valued};
ghost use Rattle.key_order.specs.SamePlace.{is_same_place};
ghost use Rattle.repost_laws.specs.Builds.{IsFoundAt, IsValuedAt, IsFirst, IsClean};
ghost use Rattle.repost_frontier.specs.Readings.{value_of, found_of, suspects_of, revalued_of};
ghost use Rattle.repost_frontier.specs.Slots.{slot_entry, slot_at, put_slot, slots_without, new_slot, marks, with_value, is_suspect, as_published};
ghost use Rattle.repost_frontier.specs.declared.slot.Slot.{Slot};

/// A value that is told of a movement is what is found at its place from then on. The movement there is suspect no longer and
/// was valued since the last publication, and others stay as they were.
pub fn values_are_found()
    ensures found { (slots : List Slot) (place : Place) (v : Valued) (s : Slot) → slot_at slots place ≡ Some s
        → IsFoundAt (found_of slots) (found_of (with_value slots place v)) place (value_of v) }
    ensures revalued { (slots : List Slot) (place : Place) (v : Valued) (s : Slot) → slot_at slots place ≡ Some s
        → IsValuedAt (revalued_of slots) (revalued_of (with_value slots place v)) place }
    ensures suspect { (slots : List Slot) (place : Place) (v : Valued) → suspects_of (with_value slots place v) place ≡ false }
    ensures suspects { (slots : List Slot) (place : Place) (v : Valued) (p : Place) → p ≢ place
        → suspects_of (with_value slots place v) p ≡ suspects_of slots p }
    ensures entries { (slots : List Slot) (place : Place) (v : Valued)
        → map slot_entry (with_value slots place v) ≡ map slot_entry slots }
{}

/// A mark makes the movement at its place suspect, and changes nothing else.
pub fn marks_are_made()
    ensures suspect { (slots : List Slot) (place : Place) (s : Slot) → slot_at slots place ≡ Some s
        → suspects_of (marks slots place) place ≡ true }
    ensures suspects { (slots : List Slot) (place p : Place) → p ≢ place
        → suspects_of (marks slots place) p ≡ suspects_of slots p }
    ensures found { (slots : List Slot) (place p : Place) → found_of (marks slots place) p ≡ found_of slots p }
    ensures revalued { (slots : List Slot) (place p : Place) → revalued_of (marks slots place) p ≡ revalued_of slots p }
    ensures entries { (slots : List Slot) (place : Place) → map slot_entry (marks slots place) ≡ map slot_entry slots }
{}

/// A new movement is suspect, and was neither valued before nor since the last publication. Others stay as they were.
pub fn new_ones_are_suspect()
    ensures suspect { (slots : List Slot) (e : Entry) → slot_at slots e.place ≡ None
        → suspects_of (put_slot slots (new_slot e)) e.place ≡ true }
    ensures suspects { (slots : List Slot) (e : Entry) (p : Place) → p ≢ e.place
        → suspects_of (put_slot slots (new_slot e)) p ≡ suspects_of slots p }
    ensures found { (slots : List Slot) (e : Entry) (p : Place) → slot_at slots e.place ≡ None
        → found_of (put_slot slots (new_slot e)) p ≡ found_of slots p }
    ensures revalued { (slots : List Slot) (e : Entry) (p : Place) → slot_at slots e.place ≡ None
        → revalued_of (put_slot slots (new_slot e)) p ≡ revalued_of slots p }
    ensures entries { (slots : List Slot) (e : Entry)
        → map slot_entry (put_slot slots (new_slot e)) ≡ put (map slot_entry slots) e }
{}

/// At a place whose movement is taken out there is none, and at others there is what there was.
pub fn one_that_goes_is_gone()
    ensures gone { (slots : List Slot) (place : Place) → slot_at (slots_without slots place) place ≡ None }
    ensures others { (slots : List Slot) (place p : Place) → p ≢ place
        → slot_at (slots_without slots place) p ≡ slot_at slots p }
    ensures entries { (slots : List Slot) (place : Place)
        → map slot_entry (slots_without slots place) ≡ filter (λ e. not (is_same_place e.place place)) (map slot_entry slots) }
{}

/// The first movement in posting order that is suspect is the first suspect of the line, and where there is none the line is
/// clean.
pub fn the_first_is_the_first_suspect()
    ensures first { (slots : List Slot) (s : Slot) → IsInPostingOrder (map slot_entry slots)
        → find is_suspect slots ≡ Some s → IsFirst (map slot_entry slots) (suspects_of slots) s.entry }
    ensures suspect { (slots : List Slot) (s : Slot) → IsInPostingOrder (map slot_entry slots)
        → find is_suspect slots ≡ Some s → suspects_of slots s.entry.place ≡ true }
    ensures slot { (slots : List Slot) (s : Slot) → IsInPostingOrder (map slot_entry slots)
        → find is_suspect slots ≡ Some s → slot_at slots s.entry.place ≡ Some s }
    ensures clean { (slots : List Slot) → find is_suspect slots ≡ None
        → IsClean (map slot_entry slots) (suspects_of slots) }
{}

/// Each movement in posting order is found at its place, and what is found at a place is a movement of the line.
pub fn movements_are_found_at_their_places()
    ensures at { (slots : List Slot) (s : Slot) → IsInPostingOrder (map slot_entry slots)
        → Contains slots s → slot_at slots s.entry.place ≡ Some s }
    ensures held { (slots : List Slot) (place : Place) (s : Slot) → slot_at slots place ≡ Some s → Contains slots s }
    ensures place { (slots : List Slot) (place : Place) (s : Slot) → slot_at slots place ≡ Some s → s.entry.place ≡ place }
    ensures entry { (slots : List Slot) (e : Entry) → IsInPostingOrder (map slot_entry slots)
        → Contains (map slot_entry slots) e → (s : Slot) × (slot_at slots e.place ≡ Some s) × (s.entry ≡ e) }
{}

/// After a publication no movement was valued since. What was found and what is suspect stays.
pub fn a_publication_forgets_what_was_valued()
    ensures revalued { (slots : List Slot) (p : Place) → revalued_of (map as_published slots) p ≡ false }
    ensures found { (slots : List Slot) (p : Place) → found_of (map as_published slots) p ≡ found_of slots p }
    ensures suspects { (slots : List Slot) (p : Place) → suspects_of (map as_published slots) p ≡ suspects_of slots p }
    ensures entries { (slots : List Slot) → map slot_entry (map as_published slots) ≡ map slot_entry slots }
{}
