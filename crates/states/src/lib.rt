// The states of a date: each one's value over the first layer, its recorded amount over the date's layer of the table, as far as
// one is lent.
#![tactic(auto)]

ghost use Rattle.std.specs.Prelude.{◌≡◌, ◌≢◌, ℕ, ◌+◌, ◌-◌, ◌*◌, ◌/◌, ◌%◌, ◌^◌, ◌≤◌, ◌<◌, length, get_or};
ghost use Rattle.slices.specs.Stored.{stored};
ghost use Rattle.rules.specs.Date.{static, dynamic};
ghost use Rattle.date.specs.Behaviour.{behaviour_in};
ghost use Rattle.keys.specs.Sums.{Sums, Span, sums};
ghost use Rattle.worth.specs.Worth.{Keys};
ghost use Rattle.states.specs.Decided.{Ready, Deciding, Prepared, Decided, Turned};

use date::Behaviour;
use keys::{BLOCK, Best, Block, Date};

// How a date's states are decided. `rising` is of the dynamic behaviour alone: in the enum it would be of the rules' behaviour, too.
#[derive(Clone, Copy)]
struct States {
    behaviour: Behaviour,
    d: Date,
    rising: bool,
}

// The amounts of n keys, to the entries from `at` on. By index, here and below: plain loops are widened.
fn take_amounts(best: &Best, table: &mut [u16], at: usize, n: usize)
    requires { (n ≤ 512) × (at + n ≤ length table.old) }
    ensures { table.new ≡ stored table.old at (λ (j : ℕ). 8191 - get_or best.now j 0 % 8192) n }
{
    for j in 0..n {
        table[at + j] = (8191 - best[j] % 8192) as u16;
    }
}

// .. and their values: of another part of a key and another type, so that one function for both is no plainer.
fn take_values(best: &Best, work: &mut [u64], at: usize, n: usize)
    requires { (n ≤ 512) × (at + n ≤ length work.old) }
    ensures { work.new ≡ stored work.old at (λ (j : ℕ). get_or best.now j 0 / 8192) n }
{
    for j in 0..n {
        work[at + j] = best[j] / 8192;
    }
}

// Under the static behaviour the states from the level on withdraw the level, so that no key is needed: their amounts ..
fn fill_level(table: &mut [u16], at: usize, n: usize, level: usize)
    requires { (at + n ≤ length table.old) × (level < 65536) }
    ensures { table.new ≡ stored table.old at (λ (j : ℕ). level) n }
{
    table[at..at + n].fill(level as u16);
}

// .. and their values, from one row of sums.
fn copy_sums(work: &mut [u64], to: usize, at: usize, n: usize, cash: u64)
    requires { (to + n ≤ at) × (at + n ≤ length work.old) × (cash < 2 ^ 62) }
    ensures { work.new ≡ stored work.old to (λ (j : ℕ). cash + get_or work.old (at + j) 0 / 8192) n }
{
    for j in 0..n {
        work[to + j] = cash + work[at + j] / 8192;
    }
}

fn static_block(work: &mut [u64], table: &mut [u16], d: Date, s: Block)
    requires { Span work.old d s × (d.level ≤ s.from) }
    ensures { Decided static (sums work.old d) work.old table.old work.new table.new d
        (s.w * d.stride + s.from) (s.w * d.stride + s.from + s.n) }
{
    let level = d.level;
    let first = s.w * d.stride + s.from;
    let at = usize::min(first, table.len());
    fill_level(table, at, usize::min(s.n, table.len() - at), level);
    let sums = d.place(s.w.saturating_sub(level), s.from - level);
    copy_sums(work, first, sums, s.n, (10000 * level) as u64);
}

impl States {
    // The keys of a block, whatever was there.
    #[inline(always)]
    fn decide_keys(self, best: &mut Best, work: &[u64], s: Block)
        requires { Deciding self work.now s }
        ensures { Keys (behaviour_in self.behaviour) (sums work.now self.d) self.d s best.new }
    {
        match self.behaviour {
            Behaviour::Dynamic => dynamic::decide_block(best, work, self.d, s, self.rising),
            _ => mixed::decide_block(self.behaviour, best, work, self.d, s),
        }
    }

    // The states of a block, each key taken apart: the amounts as far as the table goes. Keys, slice and table stay apart, here and
    // below: the contracts speak of each before and after. Inlined, as what follows: each behaviour then has a loop of its own, and
    // rows may be short.
    #[inline(always)]
    fn decide_block(self, best: &mut Best, work: &mut [u64], table: &mut [u16], s: Block)
        requires { Deciding self work.old s }
        ensures { Turned self work.old table.old work.new table.new
            (s.w * self.d.stride + s.from) (s.w * self.d.stride + s.from + s.n) }
    {
        self.decide_keys(best, &work[..], s);
        let first = s.w * self.d.stride + s.from;
        let at = usize::min(first, table.len());
        take_amounts(best, table, at, usize::min(s.n, table.len() - at));
        take_values(best, work, first, s.n);
    }

    // A block that starts at `from`: under the static behaviour none goes over the level.
    fn block_length(self, from: usize) -> usize
        requires { (from < self.d.stride) × (self.d.level < self.d.stride) }
        ensures { (0 < result) × (result ≤ 512) × (from + result ≤ self.d.stride) }
    {
        match self.behaviour {
            Behaviour::Static if from < self.d.level => usize::min(BLOCK, self.d.level - from),
            _ => usize::min(BLOCK, self.d.stride - from),
        }
    }

    #[inline(always)]
    fn decide_next(self, best: &mut Best, work: &mut [u64], table: &mut [u16], s: Block)
        requires { Deciding self work.old s }
        ensures { Turned self work.old table.old work.new table.new
            (s.w * self.d.stride + s.from) (s.w * self.d.stride + s.from + s.n) }
    {
        match self.behaviour {
            Behaviour::Static if self.d.level <= s.from => static_block(work, table, self.d, s),
            _ => self.decide_block(best, work, table, s),
        }
    }

    // The states of account w, 512 at a time.
    #[inline(always)]
    fn decide_row(self, best: &mut Best, work: &mut [u64], table: &mut [u16], w: usize)
        requires { Ready self work.old w }
        ensures { Turned self work.old table.old work.new table.new
            (w * self.d.stride) (w * self.d.stride + self.d.stride) }
    {
        // A block's length is known by its start alone, so no `for` counts them.
        let mut from: usize = 0;
        while from < self.d.stride {
            let n = self.block_length(from);
            self.decide_next(best, work, table, Block { w, from, n });
            from += n;
        }
    }

    // The states of the accounts below n, from the last one down: under the dynamic behaviour each reads the rows below its own.
    fn decide_down(self, best: &mut Best, work: &mut [u64], table: &mut [u16], n: usize)
        requires { Sums work.old self.d n × ((w : ℕ) → w < n → Ready self work.old w) }
        ensures { Turned self work.old table.old work.new table.new 0 (n * self.d.stride) }
    {
        for w in (0..n).rev() {
            self.decide_row(best, work, table, w);
        }
    }

    // .. under the others, which read the sums alone: from the first one up, since rows are fetched ahead in that order.
    fn decide_up(self, best: &mut Best, work: &mut [u64], table: &mut [u16], n: usize)
        requires { (behaviour_in self.behaviour ≢ dynamic) × Sums work.old self.d n }
        ensures { Turned self work.old table.old work.new table.new 0 (n * self.d.stride) }
    {
        for w in 0..n {
            self.decide_row(best, work, table, w);
        }
    }
}

// What the dynamic behaviour reads beside the sums, and whether it may pass amounts over.
fn prepare(work: &mut [u64], d: Date, n: usize) -> bool
    requires { Sums work.old d n }
    ensures { Prepared work.old work.new d n result }
{
    let rising = proportion::rises(&work[..], d, n);
    further::further_layer(work, d, n);
    rising
}

// The states of the accounts below n.
pub fn decide_layer(behaviour: Behaviour, work: &mut [u64], table: &mut [u16], d: Date, n: usize)
    requires { Sums work.old d n }
    ensures { Decided (behaviour_in behaviour) (sums work.old d) work.old table.old work.new
        table.new d 0 (n * d.stride) }
{
    let mut best = [0u64; BLOCK];
    match behaviour {
        Behaviour::Dynamic => {
            let rising = prepare(work, d, n);
            States {
                behaviour,
                d,
                rising,
            }
            .decide_down(&mut best, work, table, n);
        }
        _ => {
            let rising = false;
            States {
                behaviour,
                d,
                rising,
            }
            .decide_up(&mut best, work, table, n);
        }
    }
}
