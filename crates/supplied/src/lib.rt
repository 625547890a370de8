// Valuing a supplied table: every entry checked, then followed date by date.
#![tactic(auto)]

ghost use Rattle.std.specs.Prelude.{◌≡◌, ◌||◌, ℕ, ◌+◌, ◌*◌, ◌≤◌, ◌<◌, max, length, get_or};
ghost use Rattle.slices.specs.Found.{found};
ghost use Rattle.slices.specs.Stored.{stored};
ghost use Rattle.slices.specs.Rows.{flat};
ghost use Rattle.rules.specs.Contract.{returns_of, rates_of};
ghost use Rattle.rules.specs.Date.{free_amount};
ghost use Rattle.rules.specs.FixedTerm.{layer_size};
ghost use Rattle.rules.specs.Refusals.{accepted, short};
ghost use Rattle.laws.specs.Supplied.{table_checked};
ghost use Rattle.contract.specs.Reading.{terms_in};
ghost use Rattle.input.specs.Reading.{input_of};
ghost use Rattle.returns.specs.Sorted.{in_order};
ghost use Rattle.keys.specs.Sums.{sums, Sums};
ghost use Rattle.worth.specs.Worth.{worth_over};
ghost use Rattle.valuing.specs.Answered.{told};
ghost use Rattle.valuing.specs.First.{First};
ghost use Rattle.supplied.specs.Followed.{followed_on, Following, Dating, Back, table_on, Starting, Checked, Answered, Supplying};
ghost use Rattle.laws.specs.Terms.{table_size, bad_at, bad_in};

use contract::{Contract, Refusal};
use dates::Course;
use input::{Input, Policy};
use keys::Date;
use valuing::Valuation;

// Refusal 14 of entry e of a date's layer. The account first: few amounts are above it, and m waits for a remainder.
fn bad_entry(layer: &[u16], c: Contract, e: usize) -> bool
    requires { e < length layer.now }
    ensures { result ≡ bad_at (terms_in c) e (get_or layer.now e 0) }
{
    let stride = c.stride();
    let w = e / stride;
    let t = usize::from(layer[e]);
    if t <= w {
        return false;
    }
    let m = date::free_amount(c.level, e % stride);
    !date::admits_dynamic(m, w, t)
}

// The first bad entry of a layer, if any.
fn first_in_layer(layer: &[u16], c: Contract) -> Option<usize>
    ensures { result ≡ found (λ (e : ℕ). bad_at (terms_in c) e (get_or layer.now e 0)) (length layer.now) }
{
    slices::first(layer.len(), |e| bad_entry(layer, c, e))
}

// The first bad entry of the table, if any: date by date, each in its own layer. A `find_map` would hold the same in a closure.
fn first_bad(table: &[u16], c: Contract) -> Option<usize>
    requires { table_size (terms_in c) ≤ length table.now }
    ensures { result ≡ found (bad_in (terms_in c) table.now) (table_size (terms_in c)) }
{
    for i in 1..c.dates {
        let part = dates::layer_of(c, i);
        if let Some(e) = first_in_layer(&table[part.from..part.to], c) {
            return Some(part.from + e);
        }
    }
    None
}

// What amount t is worth.
fn worth(work: &[u64], d: Date, w: usize, a: usize, t: usize) -> usize
    requires { Sums work.now d (w + 1) × (a < d.stride) × (t ≤ max w (free_amount d.level a)) }
    ensures { result ≡ worth_over (sums work.now d) d.rate (free_amount d.level a) w a t }
{
    let m = date::free_amount(d.level, a);
    let g = date::guarantee_after(m, w, a, t);
    let at = d.place(date::balance_after(w, t), g);
    date::cash(d.rate, m, t) + (work[at] / 8192) as usize
}

// The states of account w. By index: one slice is read and written.
fn follow_row(work: &mut [u64], layer: &[u16], d: Date, w: usize)
    requires { Following work.old layer.now d (w + 1) }
    ensures { work.new
        ≡ stored work.old (w * d.stride) (followed_on d work.old layer.now w) d.stride }
{
    let stride = d.stride;
    let row = w * stride;
    for a in 0..stride {
        let i = row + a;
        let t = usize::from(layer[i]);
        work[i] = worth(&work[..], d, w, a, t) as u64;
    }
}

// The states of the accounts below n.
fn follow_layer(work: &mut [u64], layer: &[u16], d: Date, n: usize)
    requires { Following work.old layer.now d n }
    ensures { work.new
        ≡ stored work.old 0 (flat d.stride (followed_on d work.old layer.now)) (n * d.stride) }
{
    for w in 0..n {
        follow_row(work, layer, d, w);
    }
}

// The values of date i.
fn follow_date(work: &mut [u64], layer: &[u16], course: Course, i: usize)
    requires { Dating (terms_in course.contract) i work.old layer.now }
    ensures { Back (terms_in course.entry.contract) (in_order course.entry.order.now) (rates_of course.entry.rates.now) i work.old
        layer.now work.new }
{
    let d = course.sum_date(work, i);
    follow_layer(work, layer, d, course.contract.top + 1);
}

// Every decision date, from the last to the first, each by its own layer of the table. Beside `Course::all_dates`, which writes
// the layer: a closure for the date would need its law in every contract, which is no plainer.
fn follow_dates(work: &mut [u64], table: &[u16], course: Course)
    requires { Starting (terms_in course.contract) work.old table.now }
    ensures { First
        (table_on (terms_in course.entry.contract) (in_order course.entry.order.now) (rates_of course.entry.rates.now) table.now 1)
        (terms_in course.entry.contract) work.old work.new }
{
    for i in (1..course.contract.dates).rev() {
        let part = dates::layer_of(course.contract, i);
        follow_date(work, &table[part.from..part.to], course, i);
    }
}

// Refusal 11.
fn too_short(c: Contract, work: &[u64], table: &[u16]) -> bool
    ensures { result ≡ (short (2 * layer_size (terms_in c)) work.now || short (table_size (terms_in c)) table.now) }
{
    work.len() < c.work_size() || table.len() < c.table_size()
}

// The value of a table whose entries are all admissible. Beside valuing::valued, for the reason at follow_dates.
fn follow(policy: Policy, work: &mut [u64], table: &[u16]) -> Valuation
    requires { Checked (terms_in policy.contract) work.old table.now }
    ensures { Answered (terms_in policy.entry.contract) (returns_of policy.entry.list.now) (rates_of policy.entry.rates.now)
        accepted work.old table.now (told (Ok result)) work.new }
{
    let c = policy.contract;
    let mut order = [0u32; Contract::RETURNS_MOST];
    let count = returns::sort(&mut order, policy.list);
    dates::fill_maturity(work, c.stride(), c.top + 1);
    let course = Course {
        contract: c,
        order: &order[0..count],
        rates: policy.rates,
    };
    follow_dates(work, table, course);
    valuing::settle(work, policy)
}

// Values a table under a policy that was read.
fn valued(policy: Policy, work: &mut [u64], table: &[u16]) -> Result<Valuation, Refusal>
    ensures { Answered (terms_in policy.entry.contract) (returns_of policy.entry.list.now) (rates_of policy.entry.rates.now)
        (table_checked (terms_in policy.entry.contract) (returns_of policy.entry.list.now) (rates_of policy.entry.rates.now)
        work.old table.now)
        work.old table.now (told result) work.new }
{
    if too_short(policy.contract, &work[..], table) {
        return Err(Refusal::Short);
    }
    if let Some(bad) = first_bad(table, policy.contract) {
        return Err(Refusal::Amount(bad as u64));
    }
    Ok(follow(policy, work, table))
}

// Values a supplied table.
pub fn value(input: Input, work: &mut [u64], table: &[u16]) -> Result<Valuation, Refusal>
    ensures { Supplying (input_of input.entry) work.old table.now (told result) work.new }
{
    valued(Policy::read(input)?, work, table)
}
