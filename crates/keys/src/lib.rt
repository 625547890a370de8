// A value and an amount as one number, and the layers of rows that the states of a date are decided in.
#![tactic(auto)]

ghost use Rattle.std.specs.Prelude.{◌≡◌, ℕ, ◌+◌, ◌*◌, ◌^◌, ◌<◌, ◌≤◌, max, slice_index};
ghost use Rattle.slices.specs.Stored.{stored};
ghost use Rattle.keys.specs.Key.{key, amount_most};
ghost use Rattle.keys.specs.Sums.{Copying};

// A date whose states are decided: its discounted sums stand from `base` on, in rows of `stride`. One slice has both layers, as the C
// interface lends it.
#[derive(Clone, Copy)]
pub struct Date {
    pub base: usize,
    pub stride: usize,
    pub level: usize,
    pub rate: usize,
}

impl Date {
    // Where the sum of balance x and guarantee y stands.
    pub fn place(self, x: usize, y: usize) -> usize
        requires { self.base + (x * self.stride + y) < 2 ^ 64 }
        ensures { result ≡ self.base + (x * self.stride + y) }
    {
        self.base + (x * self.stride + y)
    }
}

// How many states a block has at most, and a key for each.
pub const BLOCK: usize = 512;

pub type Best = [u64; BLOCK];

// n states of account w, from guarantee `from` on.
#[derive(Clone, Copy)]
pub struct Block {
    pub w: usize,
    pub from: usize,
    pub n: usize,
}

// The key of amount t, worth `value`. One number and no struct with an order: the loops that compare keys are widened.
pub fn key(value: usize, t: usize) -> u64
    requires { (value ≤ 40000000) × (t ≤ amount_most) }
    ensures { (result ≡ key value t) × (result ≤ 327680008191) }
{
    (value * 8192 + (8191 - t)) as u64
}

// The larger of two keys: the one held, less the difference where that is negative. For loops that are widened: the plainest
// x86-64 compares no 64-bit numbers side by side, but it takes the sign of a difference.
pub fn larger(held: u64, other: u64) -> u64
    requires { (held < 2 ^ 63) × (other < 2 ^ 63) }
    ensures { result ≡ max held other }
{
    let less = held.wrapping_sub(other);
    let back = if less < 9223372036854775808 { 0 } else { less };
    held.wrapping_sub(back)
}

// The n numbers from `at` on with `add` more, for the states from `low` on. By index: a plain loop is widened. Its parameters stay
// apart, as in mixed and dynamic: each call would make a struct of its own.
pub fn copy(best: &mut Best, low: usize, work: &[u64], at: usize, n: usize, add: u64)
    requires { Copying work.now low at n add }
    ensures { best.new ≡ stored best.old low (λ (i : ℕ). slice_index work.now (at + i) + add) n }
{
    for i in 0..n {
        best[low + i] = work[at + i] + add;
    }
}
