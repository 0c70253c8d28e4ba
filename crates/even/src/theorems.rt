// What holds of any even plan of any day, whoever made it: each function stands for one theorem, its `ensures`, and does nothing.
// x and z are amounts, by task and hour, of plans in parts of 1 / d and of 1 / e.
ghost use Rattle.std.specs.Prelude.{◌≡◌, ℕ, suc, ◌+◌, ◌*◌, ◌<◌, ◌≤◌, Bool, [], ◌∷◌};
ghost use Rattle.even.specs.Day.{Day, Plan, Even, load, above};
ghost use Rattle.even.specs.Densest.{NoneDenser, Dense, Holds, Peak};
ghost use Rattle.even.specs.Evenest.{times, AsEven, AsLow, Same};
ghost use Rattle.even.specs.More.{Within, NoMore, raised, longer, shorter};
ghost use Rattle.even.specs.Tariff.{price, cost, AsCheap};
ghost use Rattle.even.specs.Worked.{AllWorked};
ghost use Rattle.fraction.specs.Sum.{sum, either};

// Of an even plan at most as much lies above any level as of any other plan, for every level at once: in the same parts, and in any.
pub fn most_even()
    ensures alike { (y : Day) (d k : ℕ) (x z : ℕ → ℕ → ℕ) → Plan y d x → Even y x → Plan y d z →
        above y x k ≤ above y z k }
    ensures any { (y : Day) (d e : ℕ) (x z : ℕ → ℕ → ℕ) → Plan y d x → Even y x → Plan y e z → AsEven y d x e z }
{}

// A plan in parts that are c times smaller is the same plan: still a plan, even if it was, with loads, levels and
// costs of c times the number.
pub fn scaled()
    ensures plan { (y : Day) (d c : ℕ) (x : ℕ → ℕ → ℕ) → 0 < c → Plan y d x → Plan y (d * c) (times c x) }
    ensures even { (y : Day) (c : ℕ) (x : ℕ → ℕ → ℕ) → Even y x → Even y (times c x) }
    ensures loads { (y : Day) (c : ℕ) (x : ℕ → ℕ → ℕ) (s : ℕ) → load y (times c x) s ≡ load y x s * c }
    ensures over { (y : Day) (c : ℕ) (x : ℕ → ℕ → ℕ) (k : ℕ) → above y (times c x) (k * c) ≡ above y x k * c }
    ensures costs { (p : ℕ → ℕ) (y : Day) (d c : ℕ) (x : ℕ → ℕ → ℕ) → 0 < d → 0 < c →
        cost p y (d * c) (times c x) ≡ cost p y d x * c }
{}

// No plan has a smaller largest load than an even one.
pub fn lowest_peak()
    ensures { (y : Day) (d e : ℕ) (x z : ℕ → ℕ → ℕ) → Plan y d x → Even y x → Plan y e z → AsLow y d x e z }
{}

// A load of n units and r parts of the next costs the price of each unit, and that part of the next one's.
pub fn price_of_units()
    ensures { (p : ℕ → ℕ) (d n r : ℕ) → r < d → price p d (n * d + r) ≡ sum n p * d + p n * r }
{}

// No plan costs less than an even one, by any tariff that is the same for each hour and whose prices p 0, p 1, .. of
// an hour's first, second, .. unit never fall.
pub fn cheapest()
    ensures { (p : ℕ → ℕ) (y : Day) (d e : ℕ) (x z : ℕ → ℕ → ℕ) → ((k : ℕ) → p k ≤ p (suc k)) →
        Plan y d x → Even y x → Plan y e z → AsCheap p y d x e z }
{}

// Two even plans have the same load in every hour.
pub fn same_loads()
    ensures { (y : Day) (d e : ℕ) (x z : ℕ → ℕ → ℕ) → Plan y d x → Even y x → Plan y e z →
        Even y z → Same y d x e z }
{}

// More work never lowers the load of an hour, however the tasks are numbered.
pub fn more_work()
    ensures { (y w : Day) (f : ℕ → ℕ) (d e : ℕ) (x z : ℕ → ℕ → ℕ) → Within y w f →
        Plan y d x → Even y x → Plan w e z → Even w z → NoMore y d x w e z }
{}

// So more units for a task never do,
pub fn more_units()
    ensures { (y : Day) (i u d e : ℕ) (x z : ℕ → ℕ → ℕ) →
        Plan y d x → Even y x → Plan (raised y i u) e z → Even (raised y i u) z → NoMore y d x (raised y i u) e z }
{}

// nor does a task more;
pub fn task_more()
    ensures { (y : Day) (u : ℕ) (p : ℕ → Bool) (d e : ℕ) (x z : ℕ → ℕ → ℕ) →
        Plan y d x → Even y x → Plan (longer y u p) e z → Even (longer y u p) z → NoMore y d x (longer y u p) e z }
{}

// and a task gone never raises one.
pub fn task_gone()
    ensures { (y : Day) (i d e : ℕ) (x z : ℕ → ℕ → ℕ) →
        Plan (shorter y i) d x → Even (shorter y i) x → Plan y e z → Even y z → NoMore (shorter y i) d x y e z }
{}

// Where no set of tasks weighs more than a / b for each hour that it may use, the union of two that weigh as much does so too,
pub fn densest_two()
    ensures { (y : Day) (a b : ℕ) (p q : ℕ → Bool) →
        NoneDenser y a b → Dense y a b p → Dense y a b q → Dense y a b (either p q) }
{}

// and so there is one that holds all of them, with their hours: the union of all densest sets.
pub fn densest_of_all()
    ensures { (y : Day) (a b : ℕ) → NoneDenser y a b →
        (u : ℕ → Bool) × Dense y a b u × ((q : ℕ → Bool) → Dense y a b q → Holds y u q) }
{}

// The largest load c of an even plan is the weight of the densest sets for each of their hours, and the hours that have it are theirs.
pub fn peak_is_densest()
    ensures { (y : Day) (d : ℕ) (x : ℕ → ℕ → ℕ) (c : ℕ) → Plan y d x → Even y x →
        0 < c → ((s : ℕ) → s < y.hours → load y x s ≤ c) → Peak y d x c }
{}

// Five days worked out: an even plan of each, and the loads that every even plan of it has.
pub fn worked_days()
    ensures { AllWorked (
        record { hours = 2; tasks = (6, 0 ∷ []) ∷ (2, 0 ∷ 1 ∷ []) ∷ []; over = 1; amounts = (6 ∷ 0 ∷ []) ∷ (0 ∷ 2 ∷ []) ∷ []; loads = 6 ∷ 2 ∷ [] }
        ∷ record { hours = 3; tasks = (6, 0 ∷ 1 ∷ 2 ∷ []) ∷ []; over = 1; amounts = (2 ∷ 2 ∷ 2 ∷ []) ∷ []; loads = 2 ∷ 2 ∷ 2 ∷ [] }
        ∷ record { hours = 3; tasks = (4, 0 ∷ 1 ∷ []) ∷ (4, 1 ∷ 2 ∷ []) ∷ []; over = 3; amounts = (8 ∷ 4 ∷ 0 ∷ []) ∷ (0 ∷ 4 ∷ 8 ∷ []) ∷ []; loads = 8 ∷ 8 ∷ 8 ∷ [] }
        ∷ record { hours = 3; tasks = (5, 0 ∷ 1 ∷ []) ∷ (1, 1 ∷ 2 ∷ []) ∷ (1, 2 ∷ []) ∷ []; over = 2; amounts = (5 ∷ 5 ∷ 0 ∷ []) ∷ (0 ∷ 0 ∷ 2 ∷ []) ∷ (0 ∷ 0 ∷ 2 ∷ []) ∷ []; loads = 5 ∷ 5 ∷ 4 ∷ [] }
        ∷ record { hours = 3; tasks = (4, 0 ∷ []) ∷ (1, 1 ∷ 2 ∷ []) ∷ []; over = 2; amounts = (8 ∷ 0 ∷ 0 ∷ []) ∷ (0 ∷ 1 ∷ 1 ∷ []) ∷ []; loads = 8 ∷ 1 ∷ 1 ∷ [] }
        ∷ []
        ) }
{}
