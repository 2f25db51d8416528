//! What a tree asks of the values that it keeps.
ghost use Rattle.std.specs.Prelude.{◌≡◌, ℕ, ℤ, Bool, true};

/// A kind of register values, with the one that every register has at the start.
pub trait Slot: Drop {
    ghost start: { Self };

    ghost is_initial: { Self → Bool };

    ghost same: { Self → Self → Bool };

    ghost resized: { ℕ → ℤ → Self → Self };

    /// The value of the start. It takes no memory.
    fn initial() -> Self
        ensures { result ≡ start };

    /// Whether this is the value of the start.
    fn is_initial(&self) -> bool
        ensures { result ≡ is_initial self.now };

    /// Whether an assignment of the other value would change nothing. A value need not be the same as itself.
    fn same(&self, other: &Self) -> bool
        ensures { result ≡ same self.now other.now };

    /// Sets a box's width, height or depth, in sp, for part 0, 1 or 2. Other kinds of values, and the void box, stay
    /// as they are.
    fn resize(&mut self, part: u8, value: i32)
        ensures { self.new ≡ resized part value self.old };

    ghost start_is_initial: { is_initial start ≡ true };

    ghost same_is_symmetric: { (x y : Self) → same x y ≡ same y x };

    ghost same_is_equal: { (x y : Self) → same x y ≡ true → x ≡ y };

    ghost initial_is_same: { (x : Self) → is_initial x ≡ same x start };

    ghost resized_is_initial: { (part : ℕ) (value : ℤ) (x : Self) → is_initial (resized part value x) ≡ is_initial x };
}
