// The states of an account under the dynamic behaviour, a block of up to 512 guarantees at a time: the key of each one's value and
// recorded amount, in an array, so that the loops along the guarantee can be widened.
#![tactic(auto)]

ghost use Rattle.std.specs.Prelude.{◌≡◌, ℕ, ◌+◌, ◌-◌, ◌*◌, ◌≤◌, ◌<◌, min, get_or};
ghost use Rattle.rules.specs.Date.{dynamic};
ghost use Rattle.keys.specs.Sums.{Span, sums};
ghost use Rattle.worth.specs.Worth.{Keys};
ghost use Rattle.worth.specs.Further.{Furthered};
ghost use Rattle.proportion.specs.Held.{raised_to};
ghost use Rattle.dynamic.specs.Block.{Offering, Alike, Row};

use keys::{Best, Block, Date};

// Numbers from `at` on, each with `add` more, for n states from state `low` on. By index: a plain loop is widened.
// Beside keys::copy, which compares nothing with what is held.
fn offer(best: &mut Best, low: usize, work: &[u64], at: usize, n: usize, add: u64)
    requires { Offering best.old work.now low at n add }
    ensures { best.new ≡ raised_to best.old low (λ (i : ℕ). get_or work.now (at + i) 0 + add) n }
{
    for i in 0..n {
        best[low + i] = keys::larger(best[low + i], work[at + i] + add);
    }
}

// The states of a block over the sums of their date. The rows below theirs hold the best of withdrawing further.
#[derive(Clone, Copy)]
struct States<'a> {
    work: &'a [u64],
    d: Date,
    s: Block,
    ghost span: { Span work.now d s },
    ghost furthered: { Furthered work.now d s.w },
}

impl<'a> States<'a> {
    ghost use Rattle.dynamic.specs.States.{Trying, Holding};

    // Amount t, up to the level, for the states whose guarantee it does not pass.
    fn offer_amount(self, best: &mut Best, t: usize)
        requires { (t ≤ self.d.level) × Trying self best.old t }
        ensures { Trying self.entry best.new (t + 1) }
    {
        let Block { w, from, n } = self.s;
        let low = usize::min(n, t.saturating_sub(from));
        let at = self
            .d
            .place(w.saturating_sub(t), (from + low).saturating_sub(t));
        offer(best, low, self.work, at, n - low, keys::key(10000 * t, t));
    }

    // The amounts 0 to m: whatever the states held, they hold the key of amount 0 first.
    fn free_block(self, best: &mut Best)
        ensures { Holding self.entry best.new 0 }
    {
        let at = self.d.place(self.s.w, self.s.from);
        keys::copy(best, 0, self.work, at, self.s.n, keys::key(0, 0));
        for t in 1..self.d.level + 1 {
            self.offer_amount(best, t);
        }
    }

    // The best of withdrawing further than m, for n states that have the same m: read off the row below.
    fn further_run(self, best: &mut Best, low: usize, n: usize, m: usize)
        requires { Alike self.d self.s low n m × Holding self best.old low }
        ensures { Holding self.entry best.new (low + n) }
    {
        let Block { w, from, .. } = self.s;
        let at = (w - m - 1) * self.d.stride + (from + low).saturating_sub(m + 1);
        let cash = 10000 * m + (10000 - self.d.rate);
        offer(best, low, self.work, at, n, keys::key(cash, w));
    }

    // Up to the level m is the guarantee itself.
    fn further_few(self, best: &mut Best)
        requires { Holding self best.old 0 }
        ensures { Holding self.entry best.new (min self.entry.s.n (min (self.entry.d.level + 1) self.entry.s.w - self.entry.s.from)) }
    {
        let Block { w, from, n } = self.s;
        let few = usize::min(n, usize::min(self.d.level + 1, w).saturating_sub(from));
        for j in 0..few {
            self.further_run(best, j, 1, from + j);
        }
    }

    // The amounts above m where the account is not below the guarantee: account and guarantee fall alike.
    fn further_block(self, best: &mut Best)
        requires { Holding self best.old 0 }
        ensures { Holding self.entry best.new (min self.entry.s.n (self.entry.s.w + 1 - self.entry.s.from)) }
    {
        self.further_few(best);
        let Block { w, from, n } = self.s;
        let low = (self.d.level + 1).saturating_sub(from);
        let end = usize::min(n, (w + 1).saturating_sub(from));
        if low < end {
            self.further_run(best, low, end - low, self.d.level);
        }
    }
}

// Every amount from 0 to the larger of w and m.
pub fn decide_block(best: &mut Best, work: &[u64], d: Date, s: Block, rising: bool)
    requires { Span work.now d s × Row work.now d s.w rising }
    ensures { Keys dynamic (sums work.now d) d s best.new }
{
    let states = States { work, d, s };
    states.free_block(best);
    states.further_block(best);
    proportion::share_block(best, work, d, s, rising);
}
