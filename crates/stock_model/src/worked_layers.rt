//! Worked examples of issues first in, first out, each a law without a premise.
ghost use Rattle.std.specs.Prelude.{◌≡◌, [], ◌∷◌, ◌++◌, take};
ghost use Rattle.stock_model.specs.Reports.{selected};
ghost use Rattle.stock_model.specs.Layers.{layers};
ghost use Rattle.stock_model.specs.WorkedIssues.{published};
ghost use Rattle.stock_model.specs.WorkedLayers.{three, two_layers, late, layers_sheet, left_of};

/// Three units that cost 100 together are sold one by one: two are worth 67 and one 34, since what is left of a
/// layer is found from the whole layer. Half of 67 would leave 33.
#[tactic(auto, unfolding(crate::specs::Reports::selected, crate::specs::Replay::replay, crate::specs::PostingOrder::posting_line, crate::specs::Entries::cancels, crate::specs::Entries::all_entries, crate::specs::Layers::layers))]
pub fn layers_of_three()
    ensures two { layers layers_sheet (selected (published (take 4 three) 4) layers_sheet) ≡ left_of 3 2 67 ∷ [] }
    ensures one { layers layers_sheet (selected (published three 5) layers_sheet) ≡ left_of 3 1 34 ∷ [] }
{}

/// Of ten units for 1000 and ten for 1300 fifteen are sold, and five worth 650 are left. Four units for 100 that
/// came before all and are typed last change what was sold: nine worth 1170 are left.
#[tactic(auto, unfolding(crate::specs::Reports::selected, crate::specs::Replay::replay, crate::specs::PostingOrder::posting_line, crate::specs::Entries::cancels, crate::specs::Entries::all_entries, crate::specs::Layers::layers))]
pub fn layers_after_a_late_receipt()
    ensures before { layers layers_sheet (selected (published two_layers 5) layers_sheet) ≡ left_of 4 5 650 ∷ [] }
    ensures after { layers layers_sheet (selected (published (two_layers ++ late ∷ []) 6) layers_sheet) ≡ left_of 4 9 1170 ∷ [] }
{}
