// The states of an account under the static and the mixed behaviour, a block of up to 512 guarantees at a time: the key of each
// one's value and recorded amount.
#![tactic(auto)]

ghost use Rattle.std.specs.Prelude.{◌≡◌, ℕ, ◌+◌, ◌-◌, ◌^◌, ◌≤◌, ◌<◌, ◌≢◌, max, min, get_or};
ghost use Rattle.slices.specs.Stored.{stored};
ghost use Rattle.rules.specs.Date.{cash, dynamic};
ghost use Rattle.date.specs.Behaviour.{behaviour_in};
ghost use Rattle.keys.specs.Key.{key};
ghost use Rattle.keys.specs.Sums.{Span, Copying, sums};
ghost use Rattle.worth.specs.Worth.{best_key, Keys};

use date::Behaviour;
use keys::{Best, Block, Date};

// The n numbers from `at` on with `add` more, but no less than `other`, for the states from `low` on.
// Beside keys::copy, which compares nothing: one loop for both is no plainer. By index, as there.
fn copy_larger(best: &mut Best, low: usize, work: &[u64], at: usize, n: usize, add: u64, other: u64)
    requires { Copying work.now low at n add × (other < 2 ^ 63) }
    ensures { best.new ≡ stored best.old low (λ (i : ℕ). max (get_or work.now (at + i) 0 + add) other) n }
{
    for i in 0..n {
        best[low + i] = keys::larger(work[at + i] + add, other);
    }
}

// The states of a block over the sums of their date. Beside dynamic's and proportion's, of which other facts are held.
#[derive(Clone, Copy)]
struct States<'a> {
    behaviour: Behaviour,
    work: &'a [u64],
    d: Date,
    s: Block,
    ghost span: { Span work.now d s },
    ghost other: { behaviour_in behaviour ≢ dynamic },
}

impl<'a> States<'a> {
    // The whole account, above m.
    fn surrender_key(self, m: usize) -> u64
        ensures { (result
            ≡ key (cash self.entry.d.rate m self.entry.s.w + sums self.entry.work.now self.entry.d 0 0) self.entry.s.w)
            × (result < 2 ^ 63) }
    {
        let w = self.s.w;
        let at = self.d.place(0, 0);
        self.work[at] + keys::key(date::cash(self.d.rate, m, w), w)
    }

    // The state of guarantee a.
    fn state_key(self, a: usize) -> u64
        requires { a < self.d.stride }
        ensures { result
            ≡ best_key (behaviour_in self.entry.behaviour) (sums self.entry.work.now self.entry.d) self.entry.d.rate
            self.entry.d.level self.entry.s.w a }
    {
        let w = self.s.w;
        let m = date::free_amount(self.d.level, a);
        let at = self.d.place(w.saturating_sub(m), a - m);
        let stay = self.work[at] + keys::key(10000 * m, m);
        if self.behaviour == Behaviour::Static || w <= m {
            return stay;
        }
        keys::larger(stay, self.surrender_key(m))
    }

    // Below the level m is the guarantee itself, and each state leads to another row. By index: it gives the guarantee, too.
    fn below_level(self, best: &mut Best, n: usize)
        requires { n ≤ self.s.n }
        ensures { best.new
            ≡ stored best.old 0
            (λ (j : ℕ). best_key (behaviour_in self.entry.behaviour) (sums self.entry.work.now self.entry.d)
            self.entry.d.rate self.entry.d.level self.entry.s.w (self.entry.s.from + j)) n }
    {
        for j in 0..n {
            best[j] = self.state_key(self.s.from + j);
        }
    }

    // From the level on m is the level, and the states lead to one row.
    fn from_level(self, best: &mut Best, low: usize)
        requires { low ≡ min self.s.n (self.d.level - self.s.from) }
        ensures { best.new
            ≡ stored best.old low
            (λ (i : ℕ). best_key (behaviour_in self.entry.behaviour) (sums self.entry.work.now self.entry.d)
            self.entry.d.rate self.entry.d.level self.entry.s.w (self.entry.s.from + (low + i)))
            (self.entry.s.n - low) }
    {
        let level = self.d.level;
        let Block { w, from, n } = self.s;
        let at = self.d.place(w.saturating_sub(level), (from + low).saturating_sub(level));
        let add = keys::key(10000 * level, level);
        if self.behaviour == Behaviour::Static || w <= level {
            keys::copy(best, low, self.work, at, n - low, add);
        } else {
            let other = self.surrender_key(level);
            copy_larger(best, low, self.work, at, n - low, add, other);
        }
    }
}

// The states of a block under the static or the mixed behaviour.
pub fn decide_block(behaviour: Behaviour, best: &mut Best, work: &[u64], d: Date, s: Block)
    requires { (behaviour_in behaviour ≢ dynamic) × Span work.now d s }
    ensures { Keys (behaviour_in behaviour) (sums work.now d) d s best.new }
{
    let states = States {
        behaviour,
        work,
        d,
        s,
    };
    let low = usize::min(s.n, d.level.saturating_sub(s.from));
    states.below_level(best, low);
    states.from_level(best, low);
}
