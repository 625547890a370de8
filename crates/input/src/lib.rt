// Record, list of returns and death rates, read from bytes: all in range, or a refusal with its place.
#![tactic(auto)]

ghost use Rattle.std.specs.Prelude.{◌≡◌, ◌||◌, not, ℕ, ◌+◌, ◌*◌, ◌/◌, ◌%◌, ◌≤◌, ◌<◌, ltb, eqb, length, IfOk};
ghost use Rattle.decision.specs.Index.{sum};
ghost use Rattle.slices.specs.Found.{found};
ghost use Rattle.rules.specs.Contract.{dates_most, rate_most, return_bytes, returns_most, returns_of, rate_bytes, rates_of};
ghost use Rattle.rules.specs.Refusals.{outside, verdict, bad_return, rates_checks};
ghost use Rattle.laws.specs.Accepted.{ValidReturns};
ghost use Rattle.contract.specs.Refusal.{verdict_in};
ghost use Rattle.contract.specs.Reading.{terms_in, tells};
ghost use Rattle.input.specs.Given.{Given};
ghost use Rattle.input.specs.Read.{list_read};

use contract::{Contract, Refusal};

// What a call is given, as bytes that no one has looked at.
#[derive(Clone, Copy)]
pub struct Input<'a> {
    pub bytes: &'a [u8],
    pub list: &'a [u8],
    pub rates: &'a [u8],
}

// A contract and its returns, which stay in the bytes of their list: all in range.
#[derive(Clone, Copy)]
pub struct Agreement<'a> {
    pub contract: Contract,
    pub list: &'a [u8],
    pub ghost returns: { ValidReturns (returns_of list.now) },
}

// .. and its death rates, which stay in theirs. Agreement's fields are told again: one within would make each path longer.
#[derive(Clone, Copy)]
pub struct Policy<'a> {
    pub contract: Contract,
    pub list: &'a [u8],
    pub rates: &'a [u8],
    pub ghost given: { Given (terms_in contract) list.now rates.now },
}

// The factor of return k. Its bounds stay numbers, here and below: a list is read before it is accepted, too.
pub fn factor_of(list: &[u8], k: usize) -> usize
    requires { (k < returns_most) × (return_bytes * k + 4 ≤ length list.now) }
    ensures { (result ≡ (returns_of list.now).factor k) × (result < 65536) }
{
    contract::word(list, Contract::RETURN_BYTES * k)
}

// .. and its weight.
pub fn weight_of(list: &[u8], k: usize) -> usize
    requires { (k < returns_most) × (return_bytes * k + 4 ≤ length list.now) }
    ensures { (result ≡ (returns_of list.now).weight k) × (result < 65536) }
{
    contract::word(list, Contract::RETURN_BYTES * k + 2)
}

// Refusal 7.
fn bad_length(length: usize) -> bool
    ensures { result ≡ (outside 1 (return_bytes * returns_most) length || not (eqb (length % return_bytes) 0)) }
{
    contract::outside(1, Contract::RETURN_BYTES * Contract::RETURNS_MOST, length)
        || length % Contract::RETURN_BYTES != 0
}

// Refusal 8 of return k.
fn bad_return(bytes: &[u8], k: usize) -> bool
    requires { (return_bytes * k + 4 ≤ length bytes.now) × (k < returns_most) }
    ensures { result ≡ bad_return (returns_of bytes.now) k }
{
    Contract::FACTOR_MOST < factor_of(bytes, k)
        || contract::outside(1, Contract::WEIGHT_MOST, weight_of(bytes, k))
}

// The first of the returns that is bad, if any.
fn first_bad(bytes: &[u8], count: usize) -> Option<usize>
    requires { (return_bytes * count ≤ length bytes.now) × (count ≤ returns_most) }
    ensures { result ≡ found (bad_return (returns_of bytes.now)) count }
{
    slices::first(count, |k| bad_return(bytes, k))
}

// By index, as expect::start_value: a return is read by its number, and a loop's invariant bounds the sum.
fn total_weight(bytes: &[u8], count: usize) -> usize
    requires { (return_bytes * count ≤ length bytes.now) × (count ≤ returns_most) }
    ensures { result ≡ sum (returns_of bytes.now).weight count }
{
    let mut total: usize = 0;
    for k in 0..count {
        total += weight_of(bytes, k);
    }
    total
}

// How many returns a list has.
pub fn returns_in(list: &[u8]) -> usize
    ensures { result ≡ (returns_of list.now).count }
{
    list.len() / Contract::RETURN_BYTES
}

// A list's bytes as returns in range: how many there are.
pub fn read_list(bytes: &[u8]) -> Result<usize, Refusal>
    ensures { tells (λ (n : ℕ). n) result ≡ list_read bytes.now }
{
    if bad_length(bytes.len()) {
        return Err(Refusal::ListLength);
    }
    let count = returns_in(bytes);
    if let Some(bad) = first_bad(bytes, count) {
        return Err(Refusal::Return(bad as u64));
    }
    if total_weight(bytes, count) != Contract::WEIGHT_TOTAL {
        return Err(Refusal::Weights);
    }
    Ok(count)
}

// The death rate of the period that begins on date i.
pub fn rate_of(rates: &[u8], i: usize) -> usize
    requires { (i < dates_most) × (rate_bytes * i + 2 ≤ length rates.now) }
    ensures { result ≡ rates_of rates.now i }
{
    contract::word(rates, Contract::RATE_BYTES * i)
}

// The first death rate above 10,000, if any.
fn first_high(rates: &[u8], dates: usize) -> Option<usize>
    requires { (dates ≤ dates_most) × (rate_bytes * dates ≤ length rates.now) }
    ensures { result ≡ found (λ (i : ℕ). ltb rate_most (rates_of rates.now i)) dates }
{
    slices::first(dates, |i| Contract::RATE_MOST < rate_of(rates, i))
}

// Refusals 17 and 18.
fn check_rates(rates: &[u8], dates: usize) -> Result<(), Refusal>
    requires { dates ≤ dates_most }
    ensures { verdict_in result ≡ verdict (rates_checks dates rates.now) }
{
    if rates.len() != Contract::RATE_BYTES * dates {
        return Err(Refusal::RatesLength);
    }
    match first_high(rates, dates) {
        Some(high) => Err(Refusal::DeathRate(high as u64)),
        None => Ok(()),
    }
}

impl<'a> Agreement<'a> {
    ghost use Rattle.input.specs.Reading.{agreement_tells};
    ghost use Rattle.input.specs.Read.{both_read};

    // Record and list: the record is read whole before the list is looked at.
    pub fn read(bytes: &[u8], list: &'a [u8]) -> Result<Agreement<'a>, Refusal>
        ensures tells { agreement_tells result ≡ both_read bytes.now list.entry.now }
        ensures list { IfOk result (λ agreement. agreement.list.now ≡ list.entry.now) }
    {
        let contract = Contract::read(bytes)?;
        read_list(list)?;
        Ok(Agreement { contract, list })
    }
}

impl<'a> Policy<'a> {
    ghost use Rattle.input.specs.Reading.{policy_tells, input_of};
    ghost use Rattle.input.specs.Read.{input_read};

    // Record, list and rates, which are looked at last.
    pub fn read(input: Input<'a>) -> Result<Policy<'a>, Refusal>
        ensures tells { policy_tells result ≡ input_read (input_of input.entry) }
        ensures lists { IfOk result (λ policy. (policy.list.now ≡ input.entry.list.now) × (policy.rates.now ≡ input.entry.rates.now)) }
    {
        let agreement = Agreement::read(input.bytes, input.list)?;
        check_rates(input.rates, agreement.contract.dates)?;
        Ok(Policy {
            contract: agreement.contract,
            list: input.list,
            rates: input.rates,
        })
    }
}
