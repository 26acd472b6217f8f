//! Membership in lists of numbers.
ghost use Rattle.std.specs.Prelude.{◌≡◌, nat_eq};
ghost use Rattle.std.specs.List.{list_any, list_all};

pub fn contains(numbers: &[u32], wanted: u32) -> bool
    ensures { result ≡ list_any (nat_eq wanted) numbers.now }
{
    for number in numbers {
        if wanted == *number {
            return true;
        }
    }
    false
}

/// Whether each of the first stands among the second.
pub fn are_among(some: &[u32], all: &[u32]) -> bool
    ensures { result ≡ list_all (λ one. list_any (nat_eq one) all.now) some.now }
{
    for one in some {
        if !contains(all, *one) {
            return false;
        }
    }
    true
}
