ghost use Rattle.std.specs.Prelude.{◌≡◌, ◌+◌, ◌<◌, ◌≤◌, ℕ, List, ◌++◌, sum_by, All};
ghost use Rattle.stock_nums.specs.FirstIn.{first_cost, next_cost, layers_left, layer_units, layer_value};

/// First in, first out (IAS 2.27): what the units taken cost and what the layers left are worth make up all
/// that entered. What enters later changes neither what the units before cost nor the layers left of them.
pub fn layers_are_worth_what_is_left<X>()
    ensures all { (units value : X → ℕ) (es : List X) (x : ℕ) → sum_by units es ≤ x → first_cost units value es x ≡ sum_by value es }
    ensures bound { (units value : X → ℕ) (es : List X) (x : ℕ) → first_cost units value es x ≤ sum_by value es }
    ensures more { (units value : X → ℕ) (es : List X) (x y : ℕ) → x ≤ y → first_cost units value es x ≤ first_cost units value es y }
    ensures split { (units value : X → ℕ) (es : List X) (taken q r : ℕ) → next_cost units value es taken q + next_cost units value es (taken + q) r ≡ next_cost units value es taken (q + r) }
    ensures later { (units value : X → ℕ) (es fs : List X) (x : ℕ) → All (λ f. 0 < units f) fs → x ≤ sum_by units es → first_cost units value (es ++ fs) x ≡ first_cost units value es x }
    ensures later_layers { (units : X → ℕ) (es fs : List X) (taken : ℕ) → taken ≤ sum_by units es → layers_left units (es ++ fs) taken ≡ layers_left units es taken ++ layers_left units fs 0 }
    ensures units_left { (units : X → ℕ) (es : List X) (taken : ℕ) → taken ≤ sum_by units es → taken + sum_by (layer_units units) (layers_left units es taken) ≡ sum_by units es }
    ensures value_left { (units value : X → ℕ) (es : List X) (taken : ℕ) → All (λ e. 0 < units e) es → taken ≤ sum_by units es → first_cost units value es taken + sum_by (layer_value units value) (layers_left units es taken) ≡ sum_by value es }
{}
