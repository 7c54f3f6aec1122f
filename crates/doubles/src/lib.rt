//! Numbers that occur twice in a list, found by sorting it.
#![tactic(auto)]

ghost use Rattle.std.specs.Prelude.{◌≡◌};
ghost use Rattle.std.specs.List.Sorted.{IsNonDecreasing, IsPermutation};
ghost use Rattle.doubles.specs.Doubles.{has_double, begins_with};

/// Whether a number is at two places of a list. The call leaves the numbers in another order.
///
/// It takes no memory, and about n log n comparisons for n numbers.
pub fn has_double(numbers: &mut [u128]) -> bool
    ensures value { result ≡ has_double numbers.old }
    // The numbers are the same, in another order.
    ensures kept { IsPermutation numbers.old numbers.new }
{
    numbers.sort_unstable();
    has_neighbours(numbers)
}

/// Whether a sorted list has two equal numbers next to each other.
fn has_neighbours(numbers: &[u128]) -> bool
    requires { IsNonDecreasing numbers.now }
    ensures { result ≡ has_double numbers.now }
{
    let mut rest = numbers;
    while let Some((number, later)) = rest.split_first() {
        if begins_with(later, *number) {
            return true;
        }
        rest = later;
    }
    false
}

/// Whether a list begins with this number.
fn begins_with(numbers: &[u128], number: u128) -> bool
    ensures { result ≡ begins_with numbers.now number }
{
    match numbers.first() {
        Some(first) => *first == number,
        None => false,
    }
}
