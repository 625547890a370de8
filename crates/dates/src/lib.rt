// Backwards over the dates, in place: maturity first, then one date after the other.
#![tactic(auto)]

ghost use Rattle.std.specs.Prelude.{◌≡◌, ℕ, ◌+◌, ◌-◌, ◌*◌, ◌≤◌, ◌<◌, length};
ghost use Rattle.slices.specs.Stored.{stored};
ghost use Rattle.slices.specs.Rows.{flat};
ghost use Rattle.rules.specs.Contract.{top_most, rates_of};
ghost use Rattle.rules.specs.Date.{maturity_value};
ghost use Rattle.date.specs.Behaviour.{behaviour_in};
ghost use Rattle.contract.specs.Reading.{terms_in};
ghost use Rattle.returns.specs.Sorted.{in_order, OrderedInput};
ghost use Rattle.dates.specs.Dated.{OneDate, date_of, Summed, Dated};
ghost use Rattle.dates.specs.Back.{Valued, Starting};
ghost use Rattle.dates.specs.Layer.{DateLayer, LentLayer};

use contract::Contract;
use date::Behaviour;
use keys::Date;

// The maturity values of account w. By index: it is the guarantee, too; `enumerate` would need the row cut out first.
fn maturity_row(work: &mut [u64], stride: usize, w: usize)
    requires { (w ≤ top_most) × (stride ≤ top_most + 1) × (w * stride + stride ≤ length work.old) }
    ensures { work.new ≡ stored work.old (w * stride) (maturity_value w) stride }
{
    let row = w * stride;
    for a in 0..stride {
        work[row + a] = date::maturity_value(w, a) as u64;
    }
}

pub fn fill_maturity(work: &mut [u64], stride: usize, n: usize)
    requires { (n ≤ top_most + 1) × (stride ≤ top_most + 1) × (n * stride ≤ length work.old) }
    ensures { work.new ≡ stored work.old 0 (flat stride maturity_value) (n * stride) }
{
    for w in 0..n {
        maturity_row(work, stride, w);
    }
}

pub fn clear(work: &mut [u64], from: usize, n: usize)
    requires { from + n ≤ length work.old }
    ensures { work.new ≡ stored work.old from (λ (i : ℕ). 0) n }
{
    work[from..from + n].fill(0);
}

// Where a part of the table starts and ends. No Range: it is no Copy, and `supplied::first_bad` reads `from` behind
// the slice, too.
#[derive(Clone, Copy)]
pub struct Part {
    pub from: usize,
    pub to: usize,
}

// The layer of date i.
pub fn layer_of(c: Contract, i: usize) -> Part
    requires { (0 < i) × (i < c.dates) }
    ensures { DateLayer (terms_in c) i result.from result.to }
{
    let size = c.layer_size();
    let from = (i - 1) * size;
    Part {
        from,
        to: from + size,
    }
}

// .. as far as `lent` entries of a table go.
fn lent_layer(c: Contract, i: usize, lent: usize) -> Part
    requires { (0 < i) × (i < c.dates) }
    ensures { LentLayer (terms_in c) i lent result.from result.to }
{
    let part = layer_of(c, i);
    Part {
        from: usize::min(part.from, lent),
        to: usize::min(part.to, lent),
    }
}

// What leads back over the dates: a contract, its returns from the smallest factor up, and its death rates.
#[derive(Clone, Copy)]
pub struct Course<'a> {
    pub contract: Contract,
    pub order: &'a [u32],
    pub rates: &'a [u8],
    pub ghost given: { OrderedInput (terms_in contract) (in_order order.now) rates.now },
}

impl<'a> Course<'a> {
    // The discounted sums of date i, in the second layer, over the next date's values, each with its share at death. Gives where they
    // stand, with the date's terms.
    pub fn sum_date(self, work: &mut [u64], i: usize) -> Date
        requires { OneDate (terms_in self.contract) i work.old }
        ensures { (result ≡ date_of (terms_in self.entry.contract) i)
            × Summed (terms_in self.entry.contract) (in_order self.entry.order.now) (rates_of self.entry.rates.now i) work.old
            work.new result }
    {
        let c = self.contract;
        let stride = c.stride();
        death::share_layer(work, input::rate_of(self.rates, i), stride, c.top + 1);
        expect::expect_layer(work, self.order, c, i);
        Date {
            base: c.layer_size(),
            stride,
            level: c.level,
            rate: date::rate_on(c.penalty, c.step, i),
        }
    }

    // The values and amounts of date i.
    fn one_date(self, behaviour: Behaviour, work: &mut [u64], table: &mut [u16], i: usize)
        requires { OneDate (terms_in self.contract) i work.old }
        ensures { Dated (behaviour_in behaviour) (terms_in self.entry.contract) (in_order self.entry.order.now)
            (rates_of self.entry.rates.now) i work.old table.old work.new table.new }
    {
        let d = self.sum_date(work, i);
        states::decide_layer(behaviour, work, table, d, self.contract.top + 1);
    }

    // Every decision date, from the last to the first, each in its own layer of the table, if one is lent.
    pub fn all_dates(self, behaviour: Behaviour, work: &mut [u64], table: &mut [u16])
        requires { Starting (terms_in self.contract) work.old }
        ensures { Valued (behaviour_in behaviour) (terms_in self.entry.contract) (in_order self.entry.order.now)
            (rates_of self.entry.rates.now) work.old table.old work.new table.new 0 }
    {
        for i in (1..self.contract.dates).rev() {
            let part = lent_layer(self.contract, i, table.len());
            self.one_date(behaviour, work, &mut table[part.from..part.to], i);
        }
    }
}
