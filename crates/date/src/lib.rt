// One date on plain numbers: the leaves that every operation is made of. No structs: each is a function of rules/Date, with its bounds.
#![tactic(auto)]

ghost use Rattle.std.specs.Prelude.{◌≡◌, ◌-◌, ◌*◌, ◌≤◌, ◌<◌, max, min};
ghost use Rattle.rules.specs.Contract.{top_most, dates_most, rate_most, discount_most, factor_most};
ghost use Rattle.rules.specs.Date.{dynamic, free_amount, largest_amount, admits, rate_on, penalty, cash, guarantee_after};
ghost use Rattle.rules.specs.Date.{balance_after, lifted_account, next_account, excess_paid, maturity_value};
ghost use Rattle.rules.specs.Date.{death_payment, death_share, discounted};
ghost use Rattle.date.specs.Behaviour.{Numbers};

// Which amounts a holder may choose from.
#[derive(Clone, Copy, Debug, PartialEq, Eq)]
pub enum Behaviour {
    Static,
    Mixed,
    Dynamic,
}

// A number that no behaviour has.
#[derive(Clone, Copy, Debug, PartialEq, Eq)]
pub struct UnknownBehaviour {
    pub number: usize,
}

impl TryFrom<usize> for Behaviour {
    type Error = UnknownBehaviour;

    ghost try_from_gives = { Numbers };

    fn try_from(number: usize) -> Result<Self, UnknownBehaviour> {
        match number {
            0 => Ok(Behaviour::Static),
            1 => Ok(Behaviour::Mixed),
            2 => Ok(Behaviour::Dynamic),
            _ => Err(UnknownBehaviour { number }),
        }
    }
}

pub fn free_amount(level: usize, a: usize) -> usize
    ensures { result ≡ free_amount level a }
{
    usize::min(level, a)
}

pub fn largest_amount(m: usize, w: usize) -> usize
    ensures { result ≡ largest_amount m w }
{
    usize::max(w, m)
}

pub fn admits_dynamic(m: usize, w: usize, t: usize) -> bool
    ensures { result ≡ admits dynamic m w t }
{
    t <= largest_amount(m, w)
}

// The penalty rate on date i.
pub fn rate_on(rate: usize, step: usize, i: usize) -> usize
    requires { (rate ≤ rate_most) × (step ≤ rate_most) × (i ≤ dates_most) }
    ensures { (result ≡ rate_on rate step i) × (result ≤ rate_most) }
{
    rate.saturating_sub(i.saturating_sub(1) * step)
}

pub fn penalty(rate: usize, m: usize, t: usize) -> usize
    requires { (rate ≤ rate_most) × (t ≤ top_most) }
    ensures { (result ≡ penalty rate m t) × (result ≤ 40000000) }
{
    rate * t.saturating_sub(m)
}

pub fn cash(rate: usize, m: usize, t: usize) -> usize
    requires { (rate ≤ rate_most) × (t ≤ top_most) }
    ensures { (result ≡ cash rate m t) × (result ≤ 40000000) }
{
    (10000 * t).saturating_sub(penalty(rate, m, t))
}

pub fn guarantee_after(m: usize, w: usize, a: usize, t: usize) -> usize
    requires { (w ≤ top_most) × (a ≤ top_most) × (t ≤ max w m) }
    ensures { result ≡ guarantee_after m w a t }
{
    if t <= m {
        return a.saturating_sub(t);
    }
    usize::min(a.saturating_sub(t), a * (w - t) / w)
}

pub fn balance_after(w: usize, t: usize) -> usize
    ensures { result ≡ balance_after w t }
{
    w.saturating_sub(t)
}

// What a return makes of a balance, before the ceiling.
pub fn lifted_account(fee: usize, balance: usize, factor: usize) -> usize
    requires { (fee ≤ rate_most) × (balance ≤ top_most) × (factor ≤ factor_most) }
    ensures { (result ≡ lifted_account fee balance factor) × (result ≤ 3 * balance) }
{
    balance * factor * (10000 - fee) / 100000000
}

pub fn next_account(fee: usize, top: usize, balance: usize, factor: usize) -> usize
    requires { (fee ≤ rate_most) × (balance ≤ top_most) × (factor ≤ factor_most) }
    ensures { result ≡ next_account fee top balance factor }
{
    usize::min(top, lifted_account(fee, balance, factor))
}

// What a return pays on arrival: 10,000 x what it lifts above top.
pub fn excess_paid(fee: usize, top: usize, balance: usize, factor: usize) -> usize
    requires { (fee ≤ rate_most) × (balance ≤ top_most) × (factor ≤ factor_most) }
    ensures { (result ≡ excess_paid fee top balance factor) × (result ≤ factor_most * balance) }
{
    10000 * lifted_account(fee, balance, factor).saturating_sub(top)
}

pub fn maturity_value(w: usize, a: usize) -> usize
    requires { (w ≤ top_most) × (a ≤ top_most) }
    ensures { (result ≡ maturity_value w a) × (result ≤ 40000000) }
{
    10000 * usize::max(w, a)
}

// What a death pays on account w and guarantee a: as much as maturity. An excess is paid beside it, as to the holder who lives.
pub fn death_payment(w: usize, a: usize) -> usize
    requires { (w ≤ top_most) × (a ≤ top_most) }
    ensures { (result ≡ death_payment w a 0) × (result ≤ 40000000) }
{
    maturity_value(w, a)
}

// What value and death payment become, by the death rate.
pub fn death_share(rate: usize, value: usize, payment: usize) -> usize
    requires { (rate ≤ rate_most) × (value ≤ 4294967295) × (payment ≤ 4294967295) }
    ensures { (result ≡ death_share rate value payment) × (result ≤ 4294967295) }
{
    ((10000 - rate) * value + rate * payment) / 10000
}

// In two parts where the product would pass 64 bits.
pub fn discounted(discount: usize, sum: usize) -> usize
    requires { (discount ≤ discount_most) × (sum ≤ 100000000000000000) }
    ensures { result ≡ discounted discount sum }
{
    if sum <= 18000000000000 {
        return discount * sum / 10000000000;
    }
    (discount * (sum / 10000) + discount * (sum % 10000) / 10000) / 1000000
}
