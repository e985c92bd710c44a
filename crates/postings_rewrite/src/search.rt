//! Searching rising numbers from a place on.
ghost use Rattle.std.specs.Prelude.{◌≤◌, ◌<◌, length, slice_index};
ghost use Rattle.std.specs.List.Sorted.{IsStrictlyIncreasing};
ghost use Rattle.postings_rewrite.specs.Stores.{IsFirstFrom};

/// The first place from one on whose number is at least the target, or the end. It looks at places
/// further and further apart, so that a near one is found in a few looks.
pub fn first_from(numbers: &[u32], from: usize, target: u32) -> usize
    requires rising { IsStrictlyIncreasing numbers.now }
    requires within { from ≤ length numbers.now }
    ensures first { IsFirstFrom numbers.now from target result }
{
    let mut low = from;
    let mut step = 1;
    while step <= numbers.len() - low && numbers[low + step - 1] < target {
        low += step;
        step *= 2;
    }
    let high = numbers.len().min(low + step - 1);
    first_between(numbers, low, high, target)
}

/// The first place from one on whose number is at least the target, where the other place is the
/// end or has such a number.
fn first_between(numbers: &[u32], from: usize, to: usize, target: u32) -> usize
    requires rising { IsStrictlyIncreasing numbers.now }
    requires order { from ≤ to }
    requires within { to ≤ length numbers.now }
    requires reached { to < length numbers.now → target ≤ slice_index numbers.now to }
    ensures first { IsFirstFrom numbers.now from target result }
{
    let mut low = from;
    let mut high = to;
    while low < high {
        let middle = low + (high - low) / 2;
        if numbers[middle] < target {
            low = middle + 1;
        } else {
            high = middle;
        }
    }
    low
}
