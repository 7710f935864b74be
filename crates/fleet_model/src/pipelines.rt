//! The laws of demands, shares and pipelines.

ghost use Rattle.std.specs.Prelude.{◌≡◌, true, ℕ, ◌<◌, ◌≤◌, List, length};
ghost use Rattle.exact_model.specs.Fraction.{whole, ◌≈◌, ◌≤ℚ◌, ◌+ℚ◌, ◌-ℚ◌, ◌*ℚ◌, ◌/ℚ◌};
ghost use Rattle.spares_input.specs.Rows.{is_line};
ghost use Rattle.spares_input.specs.Frames.{part_at};
ghost use Rattle.spares_input.specs.Cases.{CaseRows, IsCase};
ghost use Rattle.exact_model.specs.Sums.{sum_over};
ghost use Rattle.fleet_model.specs.Rows.{bases, here, per_system, sent, shop_units, systems};
ghost use Rattle.fleet_model.specs.Demand.{f_i0, f_ij, f_0j};
ghost use Rattle.fleet_model.specs.ZeroStock.{direct_00, direct_ij, direct_0j, zero_stock_i0, zero_stock_00, zero_stock_ij, zero_stock_0j};
ghost use Rattle.fleet_model.specs.Pairs.{demand, share, direct, zero_stock, mean, variance, backorders, spread};
ghost use Rattle.fleet_model.specs.Fleet.{IsAllocation};
ghost use Rattle.fleet_model.specs.Units.{demand_units, demand_scale, share_top, share_bottom, direct_units, zero_stock_units, in_pipeline};
ghost use Rattle.fleet_model.specs.Laws.{IsBase, Reaches, IsCapped, HasNoStock};

/// In a valid case the cuts at 0 of the differences `1 - r` and `1 - f` change nothing.
pub fn nothing_cut()
    ensures sent { (c : CaseRows) (p k : ℕ) → IsCase c → sent c p k +ℚ here c p k ≈ whole 1 }
    ensures share { (c : CaseRows) (p k : ℕ) → k < length c.sites → share c p k ≤ℚ whole 1 }
    ensures rest { (c : CaseRows) (p k : ℕ) → k < length c.sites
        → (whole 1 -ℚ share c p k) +ℚ share c p k ≈ whole 1 }
{}

/// In a valid case no divisor of the availabilities is 0. Only a share's divisor may be 0 in the model: a part that no
/// repair needs and no base sends on has the share 0.
pub fn divisors_positive()
    ensures systems { (c : CaseRows) (j : ℕ) → IsCase c → IsBase c j → 0 < systems c j }
    ensures per_system { (c : CaseRows) (l : ℕ) → IsCase c → l < length c.parts → is_line (part_at c.parts l) ≡ true
        → 0 < per_system c l }
    ensures all_systems { (c : CaseRows) → IsCase c → 0 < (sum_over (bases c) (λ j. whole (systems c j))).num }
{}

/// The zero-stock mean is the pipeline's mean with each backorder below it at its own zero-stock mean, and the
/// pipeline's mean without any stock.
pub fn zero_stock_means()
    ensures depot_line { (c : CaseRows) (l : ℕ)
        → zero_stock_00 c l ≈ direct_00 c l +ℚ sum_over (shop_units c l) (λ i. f_i0 c l i *ℚ zero_stock_i0 c l i) }
    ensures base_shop { (c : CaseRows) (l i j : ℕ) → IsBase c j
        → zero_stock_ij c l i j ≈ direct_ij c l i j +ℚ f_ij c l i j *ℚ zero_stock_i0 c l i }
    ensures base_line { (c : CaseRows) (l j : ℕ) → IsBase c j
        → zero_stock_0j c l j ≈ direct_0j c l j +ℚ f_0j c l j *ℚ zero_stock_00 c l
        +ℚ sum_over (shop_units c l) (λ i. zero_stock_ij c l i j) }
    ensures no_stock { (c : CaseRows) (s : List ℕ) (n p k : ℕ) → HasNoStock c s → k < length c.sites
        → mean c s p k n ≈ zero_stock c p k }
{}

/// Each pair's mean, variance, EBO and VBO are at most its zero-stock mean, at every depth that reaches the stocks.
pub fn within_zero_stock_means()
    ensures capped { (c : CaseRows) (s : List ℕ) (n p k : ℕ) → Reaches c s n → k < length c.sites
        → IsCapped (zero_stock c p k) (mean c s p k n) (variance c s p k n) (backorders c s p k n) (spread c s p k n) }
    // No stock of an allocation is above 63, so each depth from 62 on reaches it.
    ensures reached { (c : CaseRows) (s : List ℕ) (n : ℕ) → IsCase c → IsAllocation c s → 62 ≤ n → Reaches c s n }
{}

/// Demands, shares, direct pipelines and zero-stock means as whole numbers of units.
pub fn whole_units()
    ensures demand { (c : CaseRows) (p k : ℕ)
        → demand c p k ≈ whole (demand_units c p k) /ℚ whole (demand_scale c p k) }
    ensures share { (c : CaseRows) (p k : ℕ) → share c p k ≈ whole (share_top c p k) /ℚ whole (share_bottom c p k) }
    ensures direct { (c : CaseRows) (p k : ℕ) → direct c p k ≈ in_pipeline (direct_units c p k) }
    ensures zero_stock { (c : CaseRows) (p k : ℕ) → zero_stock c p k ≈ in_pipeline (zero_stock_units c p k) }
{}
