//! Numbers that rise.

ghost use Rattle.std.specs.Prelude.{◌≡◌, ◌≤◌, ℕ, true, false};
ghost use Rattle.std.specs.List.Sorted.{IsStrictlyIncreasing};
ghost use Rattle.names.specs.Contents.{is_one_of};

/// Whether the number is one of these, which rise.
pub(crate) fn is_among(numbers: &[u32], number: u32) -> bool
    requires { IsStrictlyIncreasing numbers.now }
    ensures { result ≡ is_one_of numbers.now number }
{
    numbers.binary_search(&number).is_ok()
}

/// Those of the numbers, which rise, that lie from one number on up to another one. One search suffices if there are none.
pub(crate) fn between(numbers: &[u32], low: u32, high: u32) -> &[u32]
    requires { IsStrictlyIncreasing numbers.now }
    ensures rising { IsStrictlyIncreasing result.now }
    ensures same { (n : ℕ) → low ≤ n → n ≤ high → is_one_of result.now n ≡ is_one_of numbers.now n }
{
    let rest = not_below(numbers, low);
    if are_above(rest, high) {
        return &[];
    }
    not_above(rest, high)
}

/// Whether the numbers, which rise, are all above this one.
fn are_above(numbers: &[u32], number: u32) -> bool
    requires { IsStrictlyIncreasing numbers.now }
    ensures { result ≡ true → (n : ℕ) → n ≤ number → is_one_of numbers.now n ≡ false }
{
    if numbers.is_empty() {
        return true;
    }
    numbers[0] > number
}

/// Those of the numbers, which rise, that are not below this one.
fn not_below(numbers: &[u32], low: u32) -> &[u32]
    requires { IsStrictlyIncreasing numbers.now }
    ensures rising { IsStrictlyIncreasing result.now }
    ensures same { (n : ℕ) → low ≤ n → is_one_of result.now n ≡ is_one_of numbers.now n }
{
    match numbers.binary_search(&low) {
        Ok(at) => &numbers[at..],
        Err(at) => &numbers[at..],
    }
}

/// Those of the numbers, which rise, that are not above this one.
fn not_above(numbers: &[u32], high: u32) -> &[u32]
    requires { IsStrictlyIncreasing numbers.now }
    ensures rising { IsStrictlyIncreasing result.now }
    ensures same { (n : ℕ) → n ≤ high → is_one_of result.now n ≡ is_one_of numbers.now n }
{
    match numbers.binary_search(&high) {
        Ok(at) => &numbers[..at + 1],
        Err(at) => &numbers[..at],
    }
}
