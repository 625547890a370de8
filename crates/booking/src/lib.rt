// Booking one withdrawal.
#![tactic(auto)]

ghost use Rattle.std.specs.Prelude.{◌≡◌, ◌||◌, ◌++◌, ◌-◌, ◌≤◌, ltb, length};
ghost use Rattle.rules.specs.Contract.{bytes_of, top_most};
ghost use Rattle.rules.specs.Refusals.{outside, verdict};
ghost use Rattle.contract.specs.Refusal.{verdict_in};
ghost use Rattle.contract.specs.Reading.{terms_in};
ghost use Rattle.booking.specs.Booked.{Booked};
ghost use Rattle.rules.specs.Booking.{amount_checks, booking_checks, booking_bytes, booking_buffer};

use contract::{Contract, Refusal};

// What a booking fills.
const BYTES: usize = 16;

// An amount withdrawn on a date, at an account and a guarantee.
#[derive(Clone, Copy)]
pub struct Withdrawal {
    pub date: usize,
    pub account: usize,
    pub guarantee: usize,
    pub amount: usize,
}

// Refusal 12.
fn bad_state(c: Contract, w: Withdrawal) -> bool
    ensures { result ≡ (outside 1 (c.dates - 1) w.date || ltb c.top w.account || ltb c.premium w.guarantee) }
{
    contract::outside(1, c.dates - 1, w.date) || c.top < w.account || c.premium < w.guarantee
}

// The refusals beyond the record's.
fn refused_by(c: Contract, w: Withdrawal, buffer: &[u8]) -> Result<(), Refusal>
    ensures { verdict_in result
        ≡ verdict (amount_checks (terms_in c) w.date w.account w.guarantee w.amount buffer.now) }
{
    if buffer.len() != BYTES {
        return Err(Refusal::Short);
    }
    if bad_state(c, w) {
        return Err(Refusal::State);
    }
    if !date::admits_dynamic(date::free_amount(c.level, w.guarantee), w.account, w.amount) {
        return Err(Refusal::Amount(0));
    }
    Ok(())
}

fn fill(buffer: &mut [u8], cash: usize, penalty: usize, balance: usize, guarantee: usize)
    requires sixteen { length buffer.old ≡ 16 }
    requires money { (cash ≤ 40000000) × (penalty ≤ 40000000) }
    requires state { (balance ≤ top_most) × (guarantee ≤ top_most) }
    ensures { buffer.new ≡ bytes_of 4 cash ++ bytes_of 4 penalty ++ bytes_of 2 balance ++ bytes_of 2 guarantee ++ bytes_of 4 0 }
{
    buffer[0..4].copy_from_slice(&(cash as u32).to_le_bytes());
    buffer[4..8].copy_from_slice(&(penalty as u32).to_le_bytes());
    buffer[8..10].copy_from_slice(&(balance as u16).to_le_bytes());
    buffer[10..12].copy_from_slice(&(guarantee as u16).to_le_bytes());
    buffer[12..16].fill(0);
}

// Books a withdrawal under terms that were read.
fn booked(c: Contract, w: Withdrawal, buffer: &mut [u8]) -> Result<(), Refusal>
    ensures { Booked (verdict (amount_checks (terms_in c) w.date w.account w.guarantee w.amount buffer.old))
        (booking_bytes (terms_in c) w.date w.account w.guarantee w.amount) buffer.old result buffer.new }
{
    refused_by(c, w, &buffer[..])?;
    let free = date::free_amount(c.level, w.guarantee);
    let rate = date::rate_on(c.penalty, c.step, w.date);
    let cash = date::cash(rate, free, w.amount);
    let penalty = date::penalty(rate, free, w.amount);
    let balance = date::balance_after(w.account, w.amount);
    let guarantee = date::guarantee_after(free, w.account, w.guarantee, w.amount);
    fill(buffer, cash, penalty, balance, guarantee);
    Ok(())
}

pub fn book(bytes: &[u8], w: Withdrawal, buffer: &mut [u8]) -> Result<(), Refusal>
    ensures outcome { verdict_in result
        ≡ verdict (booking_checks bytes.now w.date w.account w.guarantee w.amount buffer.old) }
    ensures buffer_after { buffer.new ≡ booking_buffer bytes.now w.date w.account w.guarantee w.amount buffer.old }
{
    let contract = Contract::read(bytes)?;
    booked(contract, w, buffer)
}
