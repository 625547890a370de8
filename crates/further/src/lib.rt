// The best of withdrawing further, for every balance and guarantee: filled row by row over the first layer.
#![tactic(auto)]

ghost use Rattle.std.specs.Prelude.{◌≡◌, ℕ, ◌+◌, ◌-◌, ◌*◌, ◌^◌, ◌≤◌, ◌<◌, max, length, get_or};
ghost use Rattle.slices.specs.Stored.{stored};
ghost use Rattle.slices.specs.Rows.{cells, flat};
ghost use Rattle.keys.specs.Sums.{Sums};
ghost use Rattle.worth.specs.Further.{further_key, Furthered};

use keys::Date;

// At balance 0 nothing further can be withdrawn.
fn first_row(work: &mut [u64], d: Date)
    requires { Sums work.old d 1 }
    ensures { work.new
        ≡ stored work.old 0 (cells work.old d.base d.stride 0) d.stride }
{
    work.copy_within(d.base..d.base + d.stride, 0);
}

// A run of n entries: the better of what is there, with the rest of the balance, and of the entry below, one step on. By index: one
// slice is read and written.
fn better_run(work: &mut [u64], to: usize, stay: usize, from: usize, n: usize, rest: u64, step: u64)
    requires { (to + n ≤ stay)
        × (stay + n ≤ length work.old)
        × (from + n ≤ to)
        × ((i : ℕ) → i < n → get_or work.old (stay + i) 0 + rest < 2 ^ 63)
        × ((i : ℕ) → i < n → get_or work.old (from + i) 0 + step < 2 ^ 63) }
    ensures { work.new
        ≡ stored work.old to
        (λ (i : ℕ). max (get_or work.old (stay + i) 0 + rest) (get_or work.old (from + i) 0 + step)) n }
{
    for i in 0..n {
        work[to + i] = keys::larger(work[stay + i] + rest, work[from + i] + step);
    }
}

// The row of balance b, from the row below it. Guarantees 0 and 1 both lead to 0.
fn next_row(work: &mut [u64], d: Date, b: usize, step: u64)
    requires { Sums work.old d (b + 1) × Furthered work.old d b × (1 ≤ b) × (step ≡ 8192 * (10000 - d.rate)) }
    ensures { work.new
        ≡ stored work.old (b * d.stride) (further_key (cells work.old d.base d.stride) step b) d.stride }
{
    let row = b * d.stride;
    let stay = d.base + row;
    let from = row - d.stride;
    better_run(work, row, stay, from, 1, b as u64, step);
    better_run(work, row + 1, stay + 1, from, d.stride - 1, b as u64, step);
}

fn fill_row(work: &mut [u64], d: Date, b: usize, step: u64)
    requires { Sums work.old d (b + 1) × Furthered work.old d b × (step ≡ 8192 * (10000 - d.rate)) }
    ensures { work.new
        ≡ stored work.old (b * d.stride) (further_key (cells work.old d.base d.stride) step b) d.stride }
{
    if b == 0 {
        first_row(work, d);
    } else {
        next_row(work, d, b, step);
    }
}

// The rows of balances 0 to n - 1.
pub fn further_layer(work: &mut [u64], d: Date, n: usize)
    requires { Sums work.old d n }
    ensures { work.new
        ≡ stored work.old 0
        (flat d.stride (further_key (cells work.old d.base d.stride) (8192 * (10000 - d.rate)))) (n * d.stride) }
{
    let step = (8192 * (10000 - d.rate)) as u64;
    for b in 0..n {
        fill_row(work, d, b, step);
    }
}
