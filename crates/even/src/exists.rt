// Even plans exist: each function stands for one theorem, its `ensures`, and does nothing.
ghost use Rattle.std.specs.Prelude.{ℕ, ◌<◌};
ghost use Rattle.even.specs.Always.{Doable, Settled};
ghost use Rattle.even.specs.Day.{Day, Plan, Even};

// Every day has an even plan, if each task may be done in some hour.
pub fn every_day_has_one()
    ensures { (y : Day) → Doable y → (d : ℕ) × (x : ℕ → ℕ → ℕ) × Plan y d x × Even y x }
{}

// In parts of any size d, whole units too, it has a plan that no moves of single parts make more even.
pub fn every_day_settles()
    ensures { (y : Day) (d : ℕ) → 0 < d → Doable y → (x : ℕ → ℕ → ℕ) × Plan y d x × Settled y x }
{}
