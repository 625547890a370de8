// Valuing a contract under one of the three behaviours.
#![tactic(auto)]

ghost use Rattle.std.specs.Prelude.{◌≡◌, ◌≤◌, IfOk};
ghost use Rattle.rules.specs.Contract.{top_most, returns_of, rates_of};
ghost use Rattle.laws.specs.Bounds.{entry_most};
ghost use Rattle.rules.specs.Date.{margin};
ghost use Rattle.date.specs.Behaviour.{behaviour_in};
ghost use Rattle.contract.specs.Reading.{terms_in};
ghost use Rattle.input.specs.Reading.{input_of};
ghost use Rattle.expect.specs.Expected.{Values};
ghost use Rattle.valuing.specs.Answered.{told, checked_tells, Checked, no_table_agreed, valuing_agreed, WorkLent, Settled};
ghost use Rattle.valuing.specs.Answered.{Worked, Answered, Valuing, ValuingNoTable};

use contract::{Contract, Refusal};
use date::Behaviour;
use dates::Course;
use input::{Input, Policy};

// What a contract is worth, and by how much that is above the premium.
#[derive(Clone, Copy)]
pub struct Valuation {
    pub value: u64,
    pub margin: i64,
}

fn margin(value: u64, premium: usize) -> i64
    requires { (value ≤ entry_most) × (premium ≤ top_most) }
    ensures { result ≡ margin value premium }
{
    (value as i64) - ((10000 * premium) as i64)
}

// The valuation and the working slice, once the first layer holds the values of date 1.
pub fn settle(work: &mut [u64], policy: Policy) -> Valuation
    requires { Values (terms_in policy.contract) 0 work.old }
    ensures { Settled (terms_in policy.entry.contract) (returns_of policy.entry.list.now) (rates_of policy.entry.rates.now 0)
        work.old result work.new }
{
    let c = policy.contract;
    let value = expect::start_value(&work[..], policy.list, input::rate_of(policy.rates, 0), c);
    let size = c.layer_size();
    dates::clear(work, size, size);
    Valuation {
        value,
        margin: margin(value, c.premium),
    }
}

// A behaviour comes as a number, here and wherever a contract is valued: that it is none is refusal 10, found after the policy's.
// What a valuation is given, checked in order: record, list, rates, behaviour, the length of the working slice.
pub fn check_no_table<'a>(
    input: Input<'a>,
    behaviour: usize,
    work: &[u64],
) -> Result<(Policy<'a>, Behaviour), Refusal>
    ensures tells { checked_tells result ≡ no_table_agreed (input_of input.entry) behaviour work.now }
    ensures checked { IfOk result (Checked (input_of input.entry) behaviour) }
{
    let policy = Policy::read(input)?;
    let behaviour = Behaviour::try_from(behaviour)?;
    if work.len() < policy.contract.work_size() {
        return Err(Refusal::Short);
    }
    Ok((policy, behaviour))
}

// .. and then the length of the table.
pub fn check<'a>(
    input: Input<'a>,
    behaviour: usize,
    work: &[u64],
    table: &[u16],
) -> Result<(Policy<'a>, Behaviour), Refusal>
    ensures tells { checked_tells result ≡ valuing_agreed (input_of input.entry) behaviour work.now table.now }
    ensures checked { IfOk result (Checked (input_of input.entry) behaviour) }
{
    let (policy, behaviour) = check_no_table(input, behaviour, work)?;
    if table.len() < policy.contract.table_size() {
        return Err(Refusal::Short);
    }
    Ok((policy, behaviour))
}

// Values a policy over a working slice that is long enough and as much of a table as is lent.
pub fn valued(
    policy: Policy,
    behaviour: Behaviour,
    work: &mut [u64],
    table: &mut [u16],
) -> Valuation
    requires { WorkLent (terms_in policy.contract) work.old }
    ensures { Answered (behaviour_in behaviour) (terms_in policy.entry.contract) (returns_of policy.entry.list.now)
        (rates_of policy.entry.rates.now) work.old table.old result work.new table.new }
{
    let c = policy.contract;
    let mut order = [0u32; Contract::RETURNS_MOST];
    let count = returns::sort(&mut order, policy.list);
    dates::fill_maturity(work, c.stride(), c.top + 1);
    let course = Course {
        contract: c,
        order: &order[0..count],
        rates: policy.rates,
    };
    course.all_dates(behaviour, work, table);
    settle(work, policy)
}

// .. over the working slice alone.
pub fn valued_no_table(policy: Policy, behaviour: Behaviour, work: &mut [u64]) -> Valuation
    requires { WorkLent (terms_in policy.contract) work.old }
    ensures { Worked (behaviour_in behaviour) (terms_in policy.entry.contract) (returns_of policy.entry.list.now)
        (rates_of policy.entry.rates.now) work.old result work.new }
{
    valued(policy, behaviour, work, &mut [])
}

// Values a contract, and fills the table.
pub fn value(
    input: Input,
    behaviour: usize,
    work: &mut [u64],
    table: &mut [u16],
) -> Result<Valuation, Refusal>
    ensures { Valuing (input_of input.entry) behaviour work.old table.old (told result) work.new table.new }
{
    let (policy, behaviour) = check(input, behaviour, &work[..], &table[..])?;
    Ok(valued(policy, behaviour, work, table))
}

// .. with no table: a call of its own, as the C interface has, since `value` refuses a table that is too short.
pub fn value_no_table(
    input: Input,
    behaviour: usize,
    work: &mut [u64],
) -> Result<Valuation, Refusal>
    ensures { ValuingNoTable (input_of input.entry) behaviour work.old (told result) work.new }
{
    let (policy, behaviour) = check_no_table(input, behaviour, &work[..])?;
    Ok(valued_no_table(policy, behaviour, work))
}
