// From groups to an even plan, whatever found the groups: each function stands for one theorem, its `ensures`, and does nothing.
ghost use Rattle.std.specs.Prelude.{ℕ, ◌<◌, Bool};
ghost use Rattle.even.specs.Day.{Day};
ghost use Rattle.even.specs.Grouped.{Grouped, Levelled, Densest, FirstDensest, spread};

// Groups whose levels fall make a plan that is even.
pub fn groups_make_even_plans()
    ensures { (y : Day) (k : ℕ) (num den group at : ℕ → ℕ) (a : ℕ → ℕ → ℕ) → Grouped y k num den group at a → Levelled y k num den at (spread den group a) }
{}

// Each group is the densest of what is left when it is found, of equals the one with the most hours.
pub fn groups_are_densest()
    ensures { (y : Day) (k : ℕ) (num den group at : ℕ → ℕ) (a : ℕ → ℕ → ℕ) → Grouped y k num den group at a → (g : ℕ) → g < k → Densest y num den group at g }
{}

// The first group is the densest of all sets of tasks, of equals the one with the most hours.
pub fn first_group_is_densest()
    ensures { (y : Day) (k : ℕ) (num den group at : ℕ → ℕ) (a : ℕ → ℕ → ℕ) → Grouped y k num den group at a → 0 < k → (q : ℕ → Bool) → FirstDensest y num den at q }
{}
