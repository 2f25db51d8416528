//! Tables of numbers.
ghost use Rattle.std.specs.Prelude.{◌≡◌, ◌↔◌, IsTrue};
ghost use Rattle.save_groups.specs.Values.{same_numbers};

/// Whether two tables have the same numbers in the same order.
pub fn are_same(numbers: &[i32], others: &[i32]) -> bool
    ensures { result ≡ same_numbers numbers.now others.now }
{
    are_equal(numbers, others)
}

fn are_equal(numbers: &[i32], others: &[i32]) -> bool
    ensures { IsTrue result ↔ (numbers.now ≡ others.now) }
{
    if numbers.len() != others.len() {
        return false;
    }
    for i in 0..numbers.len() {
        if numbers[i] != others[i] {
            return false;
        }
    }
    true
}
