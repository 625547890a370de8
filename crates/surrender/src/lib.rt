// The map of surrender of any table: a bit for each entry, the lowest first.
#![tactic(auto)]

ghost use Rattle.std.specs.Prelude.{◌≡◌, ◌++◌, ℕ, ◌+◌, ◌≤◌, length, drop};
ghost use Rattle.decision.specs.Bits.{from_bits, set_bits};
ghost use Rattle.rules.specs.Map.{surrender_map, surrender_count, map_size};
ghost use Rattle.contract.specs.Reading.{terms_in};
ghost use Rattle.surrender.specs.Mapped.{draws, state_of, Open, Wording, Worded, MapRoom};
ghost use Rattle.laws.specs.Terms.{frame};

use contract::Contract;

#[derive(Clone, Copy)]
pub struct State {
    pub account: usize,
    pub guarantee: usize,
}

const FIRST: State = State {
    account: 0,
    guarantee: 0,
};

// The bits of a run of entries, and the state of the entry behind them.
#[derive(Clone, Copy)]
pub struct Run {
    pub bits: u64,
    pub next: State,
}

// How many of the amounts are the whole account: in u16, so that more of them are added at once than as usize.
fn whole(row: &[u16], account: u16) -> usize
    requires { length row.now ≤ 64 }
    ensures { result ≡ set_bits (draws row.now account) (length row.now) }
{
    let mut n: u16 = 0;
    for &t in row {
        n += u16::from(t == account);
    }
    usize::from(n)
}

// A bit for each of the amounts, one after the other.
fn each(row: &[u16], account: u16) -> u64
    requires { length row.now ≤ 64 }
    ensures { result ≡ from_bits (draws row.now account) (length row.now) }
{
    let mut bits: u64 = 0;
    for &t in row.iter().rev() {
        bits = 2 * bits + u64::from(t == account);
    }
    bits
}

// The same, where mostly none or all are set.
fn row_bits(row: &[u16], account: u16) -> u64
    requires { length row.now ≤ 64 }
    ensures { result ≡ from_bits (draws row.now account) (length row.now) }
{
    let n = whole(row, account);
    if n == 0 {
        return 0;
    }
    if n == row.len() {
        return u64::MAX >> (64 - n);
    }
    each(row, account)
}

impl State {
    // How many of the n states from this one on have an account above m: all where it is above the level, else those with a
    // guarantee below it.
    fn may_surrender(self, c: Contract, n: usize) -> usize
        ensures { Open c.level self n result }
    {
        if c.level < self.account {
            return n;
        }
        usize::min(n, self.account.saturating_sub(self.guarantee))
    }

    // The state n entries further on: in the same row, or first in the next one; behind the last row of a layer, in its first.
    fn step(self, c: Contract, n: usize) -> State
        requires { (self.account ≤ c.top) × (self.guarantee + n ≤ c.premium + 1) }
        ensures { (e : ℕ) → self ≡ state_of (terms_in c) e → result ≡ state_of (terms_in c) (e + n) }
    {
        if self.guarantee + n <= c.premium {
            return State {
                account: self.account,
                guarantee: self.guarantee + n,
            };
        }
        if self.account < c.top {
            return State {
                account: self.account + 1,
                guarantee: 0,
            };
        }
        FIRST
    }
}

// The n entries from `from` on, row by row; `at` is the state of the first. By `while`: a part's length is known by its start.
fn word(table: &[u16], c: Contract, from: usize, n: usize, at: State) -> Run
    requires { Wording (terms_in c) table.now from n at }
    ensures { Worded (terms_in c) table.now from n result }
{
    let mut bits: u64 = 0;
    let mut next = at;
    let mut k: usize = 0;
    while k < n {
        let part = usize::min(n - k, c.stride() - next.guarantee);
        let start = from + k;
        let end = start + next.may_surrender(c, part);
        bits += row_bits(&table[start..end], next.account as u16) << k;
        next = next.step(c, part);
        k += part;
    }
    Run { bits, next }
}

// The words that a map needs.
pub fn map_size(c: Contract) -> usize
    ensures { result ≡ map_size (frame (terms_in c)) }
{
    c.table_size().div_ceil(64)
}

// Fills the map of a table, word by word, and counts its set bits. By index: it says where a word's entries start, too.
pub fn fill(c: Contract, table: &[u16], map: &mut [u64]) -> u64
    requires { MapRoom (terms_in c) table.now map.old }
    ensures count { result ≡ surrender_count (frame (terms_in c)) table.now }
    ensures map_after { map.new
        ≡ surrender_map (frame (terms_in c)) table.now ++ drop (map_size (frame (terms_in c))) map.old }
{
    let size = c.table_size();
    let mut at = FIRST;
    let mut count: u64 = 0;
    for j in 0..map_size(c) {
        let from = 64 * j;
        let filled = word(table, c, from, usize::min(64, size - from), at);
        map[j] = filled.bits;
        count += u64::from(filled.bits.count_ones());
        at = filled.next;
    }
    count
}
