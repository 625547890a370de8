// Walking a contract along a path of return numbers, by the amounts of a table.
#![tactic(auto)]

ghost use Rattle.std.specs.Prelude.{◌≡◌, ◌||◌, [], ◌∷◌, ℕ, suc, ◌+◌, ◌-◌, ◌*◌, ◌≤◌, ◌<◌, max, leb, length, get_or, set};
ghost use Rattle.slices.specs.Found.{found};
ghost use Rattle.slices.specs.Stored.{stored};
ghost use Rattle.rules.specs.Contract.{top_most, returns_of};
ghost use Rattle.rules.specs.Date.{dynamic, free_amount, admits, maturity_value};
ghost use Rattle.rules.specs.FixedTerm.{cash_in};
ghost use Rattle.rules.specs.Refusals.{short, verdict};
ghost use Rattle.rules.specs.Operations.{walk_checks, walk_cashes};
ghost use Rattle.rules.specs.Policy.{living_policy};
ghost use Rattle.laws.specs.Terms.{table_size};
ghost use Rattle.laws.specs.Walk.{path_verdict};
ghost use Rattle.contract.specs.Reading.{terms_in};
ghost use Rattle.contract.specs.Refusal.{verdict_in};
ghost use Rattle.dates.specs.Back.{at};
ghost use Rattle.walk.specs.Walked.{Walking, Walked};

use contract::{Contract, Refusal};
use input::Agreement;

// The account and guarantee that are met, and what is paid on arrival there.
#[derive(Clone, Copy)]
pub struct Place {
    pub account: usize,
    pub guarantee: usize,
    pub paid: usize,
}

// A contract, its returns, a table and a path that can be walked: only the amounts are still to be looked at. Agreement's fields are
// told again: one within would make each path longer.
#[derive(Clone, Copy)]
struct Walkable<'a> {
    contract: Contract,
    list: &'a [u8],
    table: &'a [u16],
    path: &'a [u16],
    ghost fit: { Walking (terms_in contract) list.now table.now path.now },
}

// Refusal 11.
fn too_short(c: Contract, table: &[u16], cash: &[u64]) -> bool
    ensures { result ≡ (short (table_size (terms_in c)) table.now || short c.dates cash.now) }
{
    table.len() < c.table_size() || cash.len() < c.dates
}

// The first number on the path that no return has, if any. By index: `found` is of a test on numbers.
fn first_missing(path: &[u16], count: usize, n: usize) -> Option<usize>
    requires { n ≤ length path.now }
    ensures { result ≡ found (λ (j : ℕ). leb count (get_or path.now j 0)) n }
{
    slices::first(n, |j| count <= usize::from(path[j]))
}

fn entry_of(layer: &[u16], stride: usize, place: Place) -> usize
    requires { place.account * stride + place.guarantee < length layer.now }
    ensures { result ≡ get_or layer.now (place.account * stride + place.guarantee) 0 }
{
    usize::from(layer[place.account * stride + place.guarantee])
}

// Whether t may be withdrawn.
fn admitted(c: Contract, place: Place, t: usize) -> bool
    ensures { result ≡ admits dynamic (free_amount c.level place.guarantee) place.account t }
{
    date::admits_dynamic(
        date::free_amount(c.level, place.guarantee),
        place.account,
        t,
    )
}

// What is paid on date i: on arrival, and for t.
fn cash_on(c: Contract, i: usize, place: Place, t: usize) -> usize
    requires { (i < c.dates) × (t ≤ top_most) × (place.paid ≤ 20000 * top_most) }
    ensures { result ≡ place.paid + cash_in (terms_in c) i (at place.account place.guarantee) t }
{
    let rate = date::rate_on(c.penalty, c.step, i);
    place.paid + date::cash(rate, date::free_amount(c.level, place.guarantee), t)
}

// What is paid at maturity: on arrival, and for account and guarantee.
fn cash_last(place: Place) -> usize
    requires { (place.account ≤ top_most) × (place.guarantee ≤ top_most) × (place.paid ≤ 20000 * top_most) }
    ensures { result ≡ place.paid + maturity_value place.account place.guarantee }
{
    place.paid + date::maturity_value(place.account, place.guarantee)
}

impl<'a> Walkable<'a> {
    ghost use Rattle.rules.specs.Refusals.{check_each};
    ghost use Rattle.rules.specs.Product.{bad_date, walk_amount, walk_cash_on, walk_cash_last};
    ghost use Rattle.decision.specs.Index.{first};
    ghost use Rattle.walk.specs.Met.{term_of, arrival_of, Met};

    // What the path's return j leads to, from a balance and a guarantee.
    fn arrive(&self, j: usize, balance: usize, guarantee: usize) -> Place
        requires { (j < self.now.contract.dates) × (balance ≤ self.now.contract.top) }
        ensures { result ≡ arrival_of self.now j balance guarantee }
    {
        let c = self.contract;
        let number = usize::from(self.path[j]);
        let factor = input::factor_of(self.list, number);
        Place {
            account: date::next_account(c.fee, c.top, balance, factor),
            guarantee,
            paid: date::excess_paid(c.fee, c.top, balance, factor),
        }
    }

    // What the first return leads to.
    fn first_place(&self) -> Place
        ensures { Met self.now 1 result }
    {
        self.arrive(0, self.contract.premium, self.contract.premium)
    }

    // The table's amount on date i, from the layer of that date.
    fn amount_on(&self, i: usize, place: Place) -> usize
        requires { Met self.now i place × (0 < i) × (i < self.now.contract.dates) }
        ensures { result ≡ walk_amount (term_of self.now) self.now.table.now self.now.path.now i }
    {
        let part = dates::layer_of(self.contract, i);
        entry_of(
            &self.table[part.from..part.to],
            self.contract.stride(),
            place,
        )
    }

    // What is met on the next date, where t is withdrawn on date i.
    fn next_place(&self, i: usize, place: Place, t: usize) -> Place
        requires { Met self.now i place
            × (0 < i)
            × (i < self.now.contract.dates)
            × (t ≡ walk_amount (term_of self.now) self.now.table.now self.now.path.now i)
            × (t ≤ max place.account (free_amount self.now.contract.level place.guarantee)) }
        ensures { Met self.now (suc i) result }
    {
        let m = date::free_amount(self.contract.level, place.guarantee);
        self.arrive(
            i,
            date::balance_after(place.account, t),
            date::guarantee_after(m, place.account, place.guarantee, t),
        )
    }

    // Refusal 14. Nothing is written.
    fn check_dates(&self) -> Result<(), Refusal>
        ensures { verdict_in result
            ≡ verdict (check_each 14 1 (bad_date (term_of self.now) self.now.table.now self.now.path.now)
            (self.now.contract.dates - 1) ∷ []) }
    {
        let mut place = self.first_place();
        for i in 1..self.contract.dates {
            let t = self.amount_on(i, place);
            if !admitted(self.contract, place, t) {
                return Err(Refusal::Amount(i as u64));
            }
            place = self.next_place(i, place, t);
        }
        Ok(())
    }

    // Pays the cash of each date, and at maturity. By index: a date's number is needed, too.
    fn pay(&self, cash: &mut [u64])
        requires { (self.now.contract.dates ≤ length cash.old)
            × (self.now.contract.dates - 1
            ≤ first (bad_date (term_of self.now) self.now.table.now self.now.path.now) (self.now.contract.dates - 1)) }
        ensures { cash.new
            ≡ set
            (stored cash.old 0
            (walk_cash_on (term_of self.now) self.now.table.now self.now.path.now)
            (self.now.contract.dates - 1))
            (self.now.contract.dates - 1)
            (walk_cash_last (term_of self.now) self.now.table.now self.now.path.now) }
    {
        let dates = self.contract.dates;
        let mut place = self.first_place();
        for i in 1..dates {
            let t = self.amount_on(i, place);
            cash[i - 1] = cash_on(self.contract, i, place, t) as u64;
            place = self.next_place(i, place, t);
        }
        cash[dates - 1] = cash_last(place) as u64;
    }
}

// Walks under terms and returns that were read. Nothing is paid until every date is known to be admissible.
fn walked(
    agreement: Agreement,
    table: &[u16],
    path: &[u16],
    cash: &mut [u64],
) -> Result<(), Refusal>
    ensures { Walked (terms_in agreement.entry.contract) (returns_of agreement.entry.list.now)
        (path_verdict (terms_in agreement.entry.contract) (returns_of agreement.entry.list.now) table.now path.now cash.old)
        table.now path.now cash.old (verdict_in result) cash.new }
{
    let contract = agreement.contract;
    if too_short(contract, table, &cash[..]) {
        return Err(Refusal::Short);
    }
    if path.len() != contract.dates {
        return Err(Refusal::Path(contract.dates as u64));
    }
    let count = input::returns_in(agreement.list);
    if let Some(missing) = first_missing(path, count, contract.dates) {
        return Err(Refusal::Path(missing as u64));
    }
    let walk = Walkable {
        contract,
        list: agreement.list,
        table,
        path,
    };
    walk.check_dates()?;
    walk.pay(cash);
    Ok(())
}

// Walks a contract along a path, and fills N cash amounts.
pub fn walk(
    bytes: &[u8],
    list: &[u8],
    table: &[u16],
    path: &[u16],
    cash: &mut [u64],
) -> Result<(), Refusal>
    ensures outcome { verdict_in result
        ≡ verdict (walk_checks (living_policy bytes.now list.now) table.now path.now cash.old) }
    ensures cash_after { cash.new
        ≡ walk_cashes (living_policy bytes.now list.now) table.now path.now cash.old }
{
    walked(Agreement::read(bytes, list)?, table, path, cash)
}
