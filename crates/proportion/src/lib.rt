// The amounts above m where the account is below the guarantee, which then falls in proportion: tried for a block of up to 512
// guarantees, and passed over for many at a time where the rows rise.
#![tactic(auto)]

ghost use Rattle.std.specs.Prelude.{◌≡◌, ℕ, ◌+◌, ◌-◌, ◌*◌, ◌^◌, ◌<◌, ◌≤◌, min, max, true, length, slice_index};
ghost use Rattle.slices.specs.Rows.{cells};
ghost use Rattle.rules.specs.Contract.{rate_most, top_most};
ghost use Rattle.keys.specs.Sums.{Sums, Span};
ghost use Rattle.proportion.specs.Held.{Held, raised_to, free_of, key_at, tried_below};
ghost use Rattle.proportion.specs.Share.{Shared, Stepped, Sharing, Rising, Running, Leading, Bounded, Bounds, Ascending};
ghost use Rattle.proportion.specs.Share.{left, inverse_of, least_of, bound_of};

use keys::{Best, Block, Date};

// The least of some keys; where there are none, the largest number there is.
fn least(keys: &[u64]) -> u64
    ensures { result ≡ least_of keys.now }
{
    keys.iter()
        .fold(u64::MAX, |least, key| u64::min(least, *key))
}

// Where amount t leads: the row of its balance, the step by which what is left of a guarantee grows, the key of its cash.
#[derive(Clone, Copy)]
struct Way {
    t: usize,
    at: usize,
    step: usize,
    add: u64,
}

impl Way {
    // 2^40 times A × x / w is A × x × inverse: inverse is 2^40 / w rounded up, and A × x times the rounding stays below the
    // 2^40 / w that a remainder leaves.
    fn lead(d: Date, w: usize, inverse: usize, t: usize) -> Way
        requires { (d.base + (w - t) * d.stride < 18446744073709551616)
            × ((w - t) * inverse < 18446744073709551616)
            × (t ≤ w)
            × (w ≤ top_most)
            × (d.rate ≤ rate_most)
            × (inverse ≡ inverse_of w) }
        ensures { (result.t ≡ t) × Shared d w result }
    {
        Way {
            t,
            at: d.base + (w - t) * d.stride,
            step: (w - t) * inverse,
            add: keys::key(date::cash(d.rate, d.level, t), t),
        }
    }

    // .. and where the next amount leads: by a step, since products cost more than the rest of an amount that is passed over.
    fn next(self, d: Date, inverse: usize) -> Way
        requires { (self.t < top_most)
            × (d.stride ≤ self.at)
            × (inverse ≤ self.step)
            × (1 ≤ self.add)
            × (self.add < 2 ^ 59)
            × (d.rate ≤ rate_most) }
        ensures { Stepped d inverse self result }
    {
        Way {
            t: self.t + 1,
            at: self.at - d.stride,
            step: self.step - inverse,
            add: self.add + (8192 * (10000 - d.rate)) as u64 - 1,
        }
    }

    // An amount where the guarantee falls in proportion, for n states from state `low` on, the first with guarantee `first`. The
    // loop looks up single entries, and is not widened: an amount seldom gains, so that a branch costs less than a store. By
    // index, as the contract counts the states: `product` is that of guarantee `first + i`.
    fn offer(self, best: &mut Best, low: usize, n: usize, work: &[u64], first: usize)
        requires { Sharing work.now low n first self }
        ensures { best.new
            ≡ raised_to best.old low (λ (i : ℕ). slice_index work.now (self.at + left self.step (first + i)) + self.add) n }
    {
        let mut product = first * self.step;
        for i in 0..n {
            let other = work[self.at + product / 1099511627776] + self.add;
            if best[low + i] < other {
                best[low + i] = other;
            }
            product += self.step;
        }
    }

    // The key of an amount for the state of guarantee a.
    fn key(self, work: &[u64], a: usize) -> u64
        requires { (a * self.step < 18446744073709551616)
            × (self.at + left self.step a < length work.now)
            × (slice_index work.now (self.at + left self.step a) + self.add < 18446744073709551616) }
        ensures { result ≡ slice_index work.now (self.at + left self.step a) + self.add }
    {
        work[self.at + a * self.step / 1099511627776] + self.add
    }
}

// The states from `low` to `end`. Where `bound` is not 0, the rows rise with the guarantee and none of the states holds less. No
// `Option`: 0 is a bound as well, below every key, so that one comparison tells whether an amount may gain.
#[derive(Clone, Copy)]
struct Run {
    low: usize,
    end: usize,
    bound: u64,
}

impl Run {
    // Part p of a run: 8 states, with a bound of their own.
    fn part(self, p: usize, bound: u64) -> Run
        requires { (p < 4) × (self.low ≤ 512) }
        ensures { (result.low ≡ self.low + 8 * p) × (result.end ≡ min self.end (self.low + 8 * p + 8)) × (result.bound ≡ bound) }
    {
        let low = self.low + 8 * p;
        Run {
            low,
            end: usize::min(self.end, low + 8),
            bound,
        }
    }
}

// A number that no state from `low` to `end` holds less than, among the first 8 of them; 0, which always is one, where the rows
// may fall.
fn bound_from(best: &Best, low: usize, end: usize, rising: bool) -> u64
    requires { (low ≤ 1024) × (end ≤ 512) }
    ensures { result ≡ bound_of rising best.now low end }
{
    if rising {
        let end = usize::min(end, low + 8);
        least(&best[usize::min(low, end)..end])
    } else {
        0
    }
}

// .. one for each 8 of 32.
fn bounds_from(best: &Best, low: usize, end: usize, rising: bool) -> [u64; 4]
    requires { (low ≤ 512) × (end ≤ 512) }
    ensures { (p : ℕ) → p < 4 → slice_index result p ≡ bound_of rising best.now (low + 8 * p) end }
{
    std::array::from_fn(|p| bound_from(best, low + 8 * p, end, rising))
}

// The states of a block over the sums of their date, where some amount is above m: `rising` where the rows rise.
#[derive(Clone, Copy)]
struct States<'a> {
    work: &'a [u64],
    d: Date,
    s: Block,
    rising: bool,
    ghost span: { Span work.now d s },
    ghost level_is: { d.level < s.w },
    ghost rises: { rising ≡ true → Rising (cells work.now d.base d.stride) d.stride (s.w + 1) },
}

impl<'a> States<'a> {
    ghost use Rattle.proportion.specs.States.{raised_by, Holding};

    // An amount above m, for the states of a run, if any: passed over where the last of them does not gain.
    fn share_few(self, best: &mut Best, r: Run, to: Way)
        requires { Running self.d self.s r
            × Bounded self.work.now self.d self.s (λ (j : ℕ). slice_index best.old j) r
            × Leading self.d self.s to }
        ensures { best.new ≡ raised_by self.entry best.old r to.t }
    {
        if r.low < r.end {
            let last = self.s.from + r.end - 1;
            if r.bound < to.key(self.work, last) {
                to.offer(best, r.low, r.end - r.low, self.work, self.s.from + r.low);
            }
        }
    }

    // .. for a run of up to 32 states: passed over for all of them, or 8 at a time.
    fn share_amount(self, best: &mut Best, r: Run, bounds: &[u64; 4], to: Way)
        requires { Running self.d self.s r
            × (r.low < r.end)
            × Bounds self.work.now self.d self.s (λ (j : ℕ). slice_index best.old j) r bounds.now
            × Leading self.d self.s to }
        ensures { best.new ≡ raised_by self.entry best.old r to.t }
    {
        if r.bound < to.key(self.work, self.s.from + r.end - 1) {
            for (p, bound) in bounds.iter().enumerate() {
                self.share_few(best, r.part(p, *bound), to);
            }
        }
    }

    // The amounts above m, for 32 states from state `low` on.
    fn share_run(self, best: &mut Best, low: usize)
        requires { Holding self best.old low × (self.s.w < self.s.from + low) × (low < self.s.n) }
        ensures { Holding self.entry best.new (min self.entry.s.n (low + 32)) }
    {
        let w = self.s.w;
        let end = usize::min(self.s.n, low + 32);
        let bounds = bounds_from(best, low, end, self.rising);
        let bound = least(&bounds);
        let r = Run { low, end, bound };
        let inverse = (1099511627776 + w - 1) / w;
        let mut to = Way::lead(self.d, w, inverse, self.d.level);
        // No `for`: the way counts the amounts itself.
        while to.t < w {
            to = to.next(self.d, inverse);
            self.share_amount(best, r, &bounds, to);
        }
    }
}

// The amounts above m where the account is below the guarantee.
pub fn share_block(best: &mut Best, work: &[u64], d: Date, s: Block, rising: bool)
    requires { Span work.now d s
        × Held (key_at work.now d s) best.old s.n (tried_below d s (min s.n (s.w + 1 - s.from)))
        × (rising ≡ true → Rising (cells work.now d.base d.stride) d.stride (s.w + 1)) }
    ensures { Held (key_at work.now d s) best.new s.n (λ (j : ℕ). max s.w (free_of d s j) + 1) }
{
    if d.level < s.w {
        let states = States { work, d, s, rising };
        let first = usize::min(s.n, (s.w + 1).saturating_sub(s.from));
        for low in (first..s.n).step_by(32) {
            states.share_run(best, low);
        }
    }
}

// 1 where the next entry is smaller, by the sign of the difference: no `bool`, since the plainest x86-64 compares no 64-bit numbers
// side by side.
fn falls_at(work: &[u64], k: usize) -> u64
    requires { (k + 1 < length work.now) × (slice_index work.now k < 2 ^ 63) × (slice_index work.now (k + 1) < 2 ^ 63) }
    ensures { (result ≤ 1)
        × (result ≡ 0 → slice_index work.now k ≤ slice_index work.now (k + 1))
        × (slice_index work.now k ≤ slice_index work.now (k + 1) → result ≡ 0) }
{
    work[k + 1].wrapping_sub(work[k]) >> 63
}

// Whether a row never falls: its falls are counted, so that the loop can be widened.
fn ascends(work: &[u64], at: usize, n: usize) -> bool
    requires { (n ≤ top_most) × ((i : ℕ) → i < n + 1 → (at + i < length work.now) × (slice_index work.now (at + i) < 2 ^ 63)) }
    ensures { (result ≡ true → Ascending work.now at n) × (Ascending work.now at n → result ≡ true) }
{
    let mut falls: u64 = 0;
    for i in 0..n {
        falls += falls_at(work, at + i);
    }
    falls == 0
}

// Whether each of n rows rises with the guarantee: tested, so that nothing here rests on the rules of a date. No `all`: tried, but its
// closure has to say again what `ascends` requires, which is no plainer.
pub fn rises(work: &[u64], d: Date, n: usize) -> bool
    requires { Sums work.now d n }
    ensures { (result ≡ true → Rising (cells work.now d.base d.stride) d.stride n)
        × (Rising (cells work.now d.base d.stride) d.stride n → result ≡ true) }
{
    let steps = d.stride.saturating_sub(1);
    for x in 0..n {
        if !ascends(work, d.base + x * d.stride, steps) {
            return false;
        }
    }
    true
}
