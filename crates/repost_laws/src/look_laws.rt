//! What a code has to find for a movement among those of its line, so that it marks what the definitions mark, and takes over
//! what they take over.
ghost use Rattle.std.specs.Prelude.{◌≡◌, ◌↔◌, ◌⊎◌, ℕ, Bool, true, false, List, Some, Contains};
ghost use Rattle.stock_nums.specs.Causes.{is_entering};
ghost use Rattle.stock_nums.specs.Places.{is_before};
ghost use Rattle.stock_nums.specs.declared.cause.Method.{Method};
ghost use Rattle.stock_nums.specs.declared.cause.Target.{Target};
ghost use Rattle.stock_nums.specs.declared.entry.Entry.{Entry};
ghost use Rattle.stock_model.specs.Enough.{IsEnough};
ghost use Rattle.stock_model.specs.InOrder.{IsInPostingOrder};
ghost use Rattle.stock_model.specs.Values.{own_line};
ghost use Rattle.repost_laws.specs.Looks.{HaveOneMoment, IsLinkedTo, TakesUnits, StartsFromNew, LeavesAfterNew, FollowsNewReturn};
ghost use Rattle.repost_laws.specs.Looks.{StartsFromOne, LeavesAfterOne, FollowsReturn};
ghost use Rattle.repost_laws.specs.Looks.{GoesOut};
ghost use Rattle.repost_laws.specs.Touched.{is_new, is_changed, is_touched, is_touched_by, next_of_key, StartsFrom, TakesFrom};
ghost use Rattle.repost_laws.specs.Valuations.{Found, found_value, earlier, pieces_taken_by, left_by, sources, taken_over};

/// A movement starts from another exactly where it is at the moving average and the next one after it, of its item in its
/// warehouse.
pub fn starts_from_the_last()
    ensures { (line : List Entry) (g f : Entry) → IsInPostingOrder line → Contains line g → Contains line f
        → StartsFrom line g.place f ↔ ((f.method ≡ Method.Average) × (next_of_key line g ≡ Some f)) }
{}

/// A movement takes value over from another exactly where it brings in what that one took out of its warehouse, by its
/// transfer's line or as a return of its line, or where it leaves first in, first out and takes a unit that that one brought.
pub fn takes_from()
    ensures { (line : List Entry) (e f : Entry) → IsInPostingOrder line → IsEnough line → Contains line e → Contains line f
        → TakesFrom line e.place f ↔ (IsLinkedTo e f ⊎ TakesUnits line e f) }
{}

/// New records touch their own movements, those of the lines that they charge something to, the next ones after theirs of
/// items at the moving average, all that leaves first in, first out after one of theirs, of its item in its warehouse, and of
/// returns all further ones of the same line.
pub fn is_touched_when()
    ensures { (n : ℕ) (charged : Target → Bool) (line : List Entry) (f : Entry) → IsInPostingOrder line → Contains line f
        → (is_touched n charged line f ≡ true)
        ↔ ((is_new n f ≡ true) ⊎ (charged (own_line f) ≡ true) ⊎ StartsFromNew n line f ⊎ LeavesAfterNew n line f
        ⊎ FollowsNewReturn n line f) }
{}

/// Where movements come and others go, those touch the same that come, and those whose line another sum is charged to; and of those
/// that come or go, among all that were there or are there now, what new ones touch that come after theirs.
pub fn is_touched_by_when()
    ensures { (n : ℕ) (gone : ℕ → Bool) (charged : Target → Bool) (both : List Entry) (f : Entry) → IsInPostingOrder both → Contains both f
        → (is_touched_by n gone charged both f ≡ true)
        ↔ ((is_new n f ≡ true) ⊎ (charged (own_line f) ≡ true) ⊎ StartsFromOne (is_changed n gone) both f
        ⊎ LeavesAfterOne (is_changed n gone) both f ⊎ FollowsReturn (is_changed n gone) both f) }
{}

/// By a line of a voucher at most one movement leaves, where movements of one record have one moment. What left by the line
/// before another movement is what that one is worth where it comes before, and else nothing.
pub fn left_by_one_line()
    ensures before { (found : Found) (line : List Entry) (target : Target) (g f : Entry) → IsInPostingOrder line
        → HaveOneMoment line → Contains line g → own_line g ≡ target → is_entering g.place.side ≡ false
        → is_before g.place f.place ≡ true → taken_over found (left_by (earlier line f) target) ≡ found_value found g }
    ensures later { (found : Found) (line : List Entry) (target : Target) (g f : Entry) → IsInPostingOrder line
        → HaveOneMoment line → Contains line g → own_line g ≡ target → is_entering g.place.side ≡ false
        → is_before g.place f.place ≡ false → taken_over found (left_by (earlier line f) target) ≡ 0 }
    ensures none { (found : Found) (line : List Entry) (target : Target) (f : Entry)
        → ((g : Entry) → Contains line g → own_line g ≡ target → is_entering g.place.side ≡ false → ⊥)
        → taken_over found (left_by (earlier line f) target) ≡ 0 }
{}

/// What leaves is an issue, the side of a transfer that leaves, or a return to a supplier. So, first in, first out, it takes
/// over the units with its numbers, and at the moving average nothing.
pub fn units_are_taken()
    ensures causes { (e : Entry) → is_entering e.place.side ≡ false → GoesOut e }
    ensures sources { (past : List Entry) (e : Entry) → is_entering e.place.side ≡ false
        → sources past e ≡ pieces_taken_by e.method past e }
{}
