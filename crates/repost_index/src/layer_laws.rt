//! What holds of the units that movements brought and took, by their numbers.
ghost use Rattle.std.specs.Prelude.{◌≡◌, ◌+◌, ◌-◌, ◌<◌, ◌≤◌, ℕ, true, List, Contains};
ghost use Rattle.stock_nums.specs.Part.{part};
ghost use Rattle.stock_nums.specs.declared.entry.Entry.{Entry};
ghost use Rattle.stock_nums.specs.declared.entry.Key.{Key};
ghost use Rattle.stock_model.specs.Enough.{enters_under, leaves_under, entered};
ghost use Rattle.stock_model.specs.InOrder.{IsInPostingOrder};
ghost use Rattle.stock_model.specs.Values.{own_line};
ghost use Rattle.layer_ranges.specs.declared.layer.Layer.{Layer};
ghost use Rattle.repost_laws.specs.Ranges.{units_in_before, units_out_before};
ghost use Rattle.repost_index.specs.IndexState.{IndexState};
ghost use Rattle.repost_index.specs.Indexed.{AreIndexed};
ghost use Rattle.repost_index.specs.Layers.{IsLayerIn, IsLayerOut, worth_between, layer_end};

/// What units are worth is a part of what the movement is worth that brought the first of them, for those of them that it
/// brought, and what the rest are worth. They are worth nothing where there are none, or none of them entered.
pub fn layers_make_up_pieces()
    ensures first { (line : List Entry) (key : Key) (value : Entry → ℕ) (from until : ℕ) (layer : Layer)
        (brought : IsLayerIn line key from layer) → IsInPostingOrder line → from < until
        → worth_between line key value from until
        ≡ part (value brought.giver) (from - layer.begin.0) (layer_end layer until - from) layer.qty.0
        + worth_between line key value (layer_end layer until) until }
    ensures none { (line : List Entry) (key : Key) (value : Entry → ℕ) (from until : ℕ) → until ≤ from
        → worth_between line key value from until ≡ 0 }
    ensures past { (line : List Entry) (key : Key) (value : Entry → ℕ) (from until : ℕ) → entered line key ≤ from
        → worth_between line key value from until ≡ 0 }
{}

/// A unit entered with one movement and left with one: all layers that hold it are of one movement, of any that has the number
/// among its own.
pub fn a_unit_moves_once()
    ensures came { (line : List Entry) (key : Key) (unit : ℕ) (a b : Layer) (first : IsLayerIn line key unit a)
        (second : IsLayerIn line key unit b) → IsInPostingOrder line → first.giver ≡ second.giver }
    ensures came_with { (line : List Entry) (key : Key) (unit : ℕ) (e : Entry) (a : Layer) (found : IsLayerIn line key unit a)
        → IsInPostingOrder line → Contains line e → enters_under key e ≡ true
        → units_in_before line e ≤ unit → unit < units_in_before line e + e.qty.0 → found.giver ≡ e }
    ensures left { (line : List Entry) (key : Key) (unit : ℕ) (a b : Layer) (first : IsLayerOut line key unit a)
        (second : IsLayerOut line key unit b) → IsInPostingOrder line → first.taker ≡ second.taker }
    ensures left_with { (line : List Entry) (key : Key) (unit : ℕ) (e : Entry) (a : Layer) (found : IsLayerOut line key unit a)
        → IsInPostingOrder line → Contains line e → leaves_under key e ≡ true
        → units_out_before line e ≤ unit → unit < units_out_before line e + e.qty.0 → found.taker ≡ e }
{}

/// By a line of a voucher there is one movement on each side.
pub fn a_line_moves_once_on_a_side()
    ensures { (line : List Entry) (index : IndexState) (e f : Entry) → AreIndexed line index → Contains line e
        → Contains line f → own_line e ≡ own_line f → e.place.side ≡ f.place.side → e ≡ f }
{}
