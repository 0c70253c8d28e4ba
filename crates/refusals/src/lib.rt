// What every refusal has: a number that says which it is, and a place that says where.
#![tactic(auto)]

ghost use Rattle.std.specs.Prelude.{◌≡◌, ℕ};

// A refusal, known to people by its number and its place.
pub trait Numbered: Copy {
    // The number and the place.
    ghost code: { Self → ℕ × ℕ };

    // The number of the refusal.
    fn number(self) -> usize
        ensures { result ≡ (code self).0 };

    // The place of the refusal: a byte, an hour, a task, a change or a lent slice.
    fn place(self) -> usize
        ensures { result ≡ (code self).1 };
}
