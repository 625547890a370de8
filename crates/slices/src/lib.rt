// Slices of any number width, whose contents are lists of numbers: facts in specs/; and the search for the first index that passes
// a test.
#![tactic(auto)]

ghost use Rattle.std.specs.Prelude.{◌≡◌, ℕ, ◌<◌, Bool};
ghost use Rattle.slices.specs.Found.{found};

// The first index below n that passes the test, if any.
pub fn first<F: Fn(usize) -> bool>(n: usize, test: F) -> Option<usize>
    requires { (k : ℕ) → k < n → F.pre test k }
    ensures { (p : ℕ → Bool) → ((k : ℕ) (b : Bool) → k < n → F.post test k b → b ≡ p k) → result ≡ found p n }
{
    (0..n).find(
        |&k|
            requires { F.pre test k }
        { test(k) },
    )
}
