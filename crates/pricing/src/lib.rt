// The smallest fee whose value does not exceed a wanted one.
#![tactic(auto)]

ghost use Rattle.std.specs.Prelude.{◌≡◌, ◌≤◌};
ghost use Rattle.decision.specs.Bisection.{half};
ghost use Rattle.rules.specs.Contract.{rate_most, returns_of, rates_of};
ghost use Rattle.laws.specs.Terms.{with_fee};
ghost use Rattle.date.specs.Behaviour.{behaviour_in};
ghost use Rattle.contract.specs.Reading.{terms_in};
ghost use Rattle.input.specs.Reading.{input_of};
ghost use Rattle.valuing.specs.Answered.{WorkLent};
ghost use Rattle.pricing.specs.Priced.{told_fee, narrowed, Found, Pricing};

use contract::{Contract, Refusal};
use date::Behaviour;
use input::{Input, Policy};
use valuing::Valuation;

// What a contract is worth under a fee, and the fee.
#[derive(Clone, Copy)]
pub struct Priced {
    pub valuation: Valuation,
    pub fee: u64,
}

// What a search has come to: below `low` every fee gives more than wanted, and `found` is what `high` gives.
#[derive(Clone, Copy)]
struct Bracket {
    low: usize,
    high: usize,
    found: Option<Priced>,
}

// The same policy, under another fee.
fn with_fee<'a>(policy: Policy<'a>, fee: usize) -> Policy<'a>
    requires { fee ≤ rate_most }
    ensures terms { terms_in result.contract ≡ with_fee (terms_in policy.entry.contract) fee }
    ensures list { result.list.now ≡ policy.entry.list.now }
    ensures rates { result.rates.now ≡ policy.entry.rates.now }
{
    // Field by field: a literal of a struct with a ghost field takes no `..`.
    let mut contract = policy.contract;
    contract.fee = fee;
    Policy {
        contract,
        list: policy.list,
        rates: policy.rates,
    }
}

// The search once a fee between its ends is valued.
fn narrow(s: Bracket, fee: usize, valuation: Valuation, wanted: u64) -> Bracket
    requires { fee ≤ rate_most }
    ensures { result ≡ narrowed s fee valuation wanted }
{
    if wanted < valuation.value {
        return Bracket { low: fee + 1, ..s };
    }
    let found = Priced {
        valuation,
        fee: fee as u64,
    };
    Bracket {
        high: fee,
        found: Some(found),
        ..s
    }
}

// The largest power of two that is at most n.
fn power_within(n: usize) -> usize
    requires { 1 ≤ n }
    ensures { result ≡ half n }
{
    2usize.pow(n.ilog2())
}

// The smallest fee, by halves: a larger fee never gives a larger value. It starts as if 10,001 were found, which is none. What is
// left is cut by a power of two from the top, so that small fees, which are usual, are found with fewer valuations.
fn search(policy: Policy, behaviour: Behaviour, wanted: u64, work: &mut [u64]) -> Option<Priced>
    requires { WorkLent (terms_in policy.contract) work.old }
    ensures { Found (terms_in policy.entry.contract) (returns_of policy.entry.list.now)
        (rates_of policy.entry.rates.now) (behaviour_in behaviour) wanted work.old result work.new }
{
    let mut s = Bracket {
        low: 0,
        high: Contract::RATE_MOST + 1,
        found: None,
    };
    while s.low < s.high {
        let fee = s.high - power_within(s.high - s.low);
        let valuation = valuing::valued_no_table(with_fee(policy, fee), behaviour, work);
        s = narrow(s, fee, valuation, wanted);
    }
    s.found
}

// Finds the smallest fee from 0 to 10,000 whose value is at most `wanted`. The working slice is then zeros.
pub fn find_fee(
    input: Input,
    behaviour: usize,
    wanted: u64,
    work: &mut [u64],
) -> Result<Priced, Refusal>
    ensures { Pricing (input_of input.entry) behaviour wanted work.old (told_fee result) work.new }
{
    let (policy, behaviour) = valuing::check_no_table(input, behaviour, &work[..])?;
    let found = search(policy, behaviour, wanted, work);
    dates::clear(work, 0, policy.contract.work_size());
    found.ok_or(Refusal::NoFee)
}
