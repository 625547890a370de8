// The contract record, read from bytes: all in range, or a refusal.
#![tactic(auto)]

ghost use Rattle.std.specs.Prelude.{◌≡◌, ◌||◌, not, ℕ, ◌+◌, ◌*◌, ◌≤◌, ◌<◌, ltb, eqb, length};
ghost use Rattle.rules.specs.Contract.{word, long, terms_of, top_most, rate_most};
ghost use Rattle.rules.specs.Refusals.{outside, verdict, terms_checks};
ghost use Rattle.rules.specs.FixedTerm.{layer_size};
ghost use Rattle.laws.specs.Accepted.{Valid};
ghost use Rattle.laws.specs.FixedTerm.{layer_most, table_most};
ghost use Rattle.contract.specs.Refusal.{number_in, place_in, verdict_in};
ghost use Rattle.laws.specs.Terms.{table_size};

use date::UnknownBehaviour;

// Why a call is refused: the table of refusals. The numbers that comments use are those of `number`.
#[derive(Clone, Copy, Debug, PartialEq, Eq)]
pub enum Refusal {
    RecordLength,
    Premium,
    Level,
    Dates,
    Rates,
    Discount,
    ListLength,
    // the return's number
    Return(u64),
    Weights,
    Behaviour,
    Short,
    State,
    // where on the path; its length where that is wrong
    Path(u64),
    // the date of a walk, the entry of a table, 0 of a booking
    Amount(u64),
    Step,
    MapShort,
    RatesLength,
    // the period's number
    DeathRate(u64),
    NoFee,
}

impl Refusal {
    pub fn number(self) -> u32
        ensures { result ≡ number_in self }
    {
        match self {
            Refusal::RecordLength => 1,
            Refusal::Premium => 2,
            Refusal::Level => 3,
            Refusal::Dates => 4,
            Refusal::Rates => 5,
            Refusal::Discount => 6,
            Refusal::ListLength => 7,
            Refusal::Return(_) => 8,
            Refusal::Weights => 9,
            Refusal::Behaviour => 10,
            Refusal::Short => 11,
            Refusal::State => 12,
            Refusal::Path(_) => 13,
            Refusal::Amount(_) => 14,
            Refusal::Step => 15,
            Refusal::MapShort => 16,
            Refusal::RatesLength => 17,
            Refusal::DeathRate(_) => 18,
            Refusal::NoFee => 19,
        }
    }

    pub fn place(self) -> u64
        ensures { result ≡ place_in self }
    {
        match self {
            Refusal::Return(place)
            | Refusal::Path(place)
            | Refusal::Amount(place)
            | Refusal::DeathRate(place) => place,
            _ => 0,
        }
    }
}

impl From<UnknownBehaviour> for Refusal {
    ghost use Rattle.contract.specs.declared.Refusal.TheVariants.{Behaviour};

    ghost from_gives = { λ _ refusal. refusal ≡ Behaviour };

    fn from(_unknown: UnknownBehaviour) -> Refusal {
        Refusal::Behaviour
    }
}

// The terms of a record, all in range.
#[derive(Clone, Copy)]
pub struct Contract {
    pub premium: usize,
    pub level: usize,
    pub top: usize,
    pub dates: usize,
    pub fee: usize,
    pub penalty: usize,
    pub discount: usize,
    pub step: usize,
    // the two spare bytes
    pub spare: usize,
    pub ghost in_range: { Valid (record {
      premium = premium;
      level = level;
      top = top;
      dates = dates;
      fee = fee;
      penalty = penalty;
      discount = discount;
      step = step;
      spare = spare;
    }) },
}

// The two bytes from i on, low byte first.
pub fn word(bytes: &[u8], i: usize) -> usize
    requires { i + 1 < length bytes.now }
    ensures { (result ≡ word bytes.now i) × (result < 65536) }
{
    usize::from(u16::from_le_bytes([bytes[i], bytes[i + 1]]))
}

// The four bytes from i on, low byte first.
fn long(bytes: &[u8], i: usize) -> usize
    requires { i + 3 < length bytes.now }
    ensures { result ≡ long bytes.now i }
{
    u32::from_le_bytes([bytes[i], bytes[i + 1], bytes[i + 2], bytes[i + 3]]) as usize
}

pub fn outside(least: usize, most: usize, x: usize) -> bool
    ensures { result ≡ outside least most x }
{
    x < least || most < x
}

// The conditions of refusals 2, 5 and 15.
fn bad_premium(top: usize, premium: usize) -> bool
    ensures { result ≡ (ltb top_most top || outside 1 top premium) }
{
    Contract::TOP_MOST < top || outside(1, top, premium)
}

fn bad_rates(fee: usize, penalty: usize) -> bool
    ensures { result ≡ (ltb rate_most fee || ltb rate_most penalty) }
{
    Contract::RATE_MOST < fee || Contract::RATE_MOST < penalty
}

fn bad_step(step: usize, spare: usize) -> bool
    ensures { result ≡ (ltb rate_most step || not (eqb spare 0)) }
{
    Contract::RATE_MOST < step || spare != 0
}

// Refusals 2 to 6 and 15, in their order. `read` reads the fields again: no Contract is made before they are in range.
fn check(bytes: &[u8]) -> Result<(), Refusal>
    requires { length bytes.now ≡ 20 }
    ensures { verdict_in result ≡ verdict (terms_checks (terms_of bytes.now)) }
{
    let premium = word(bytes, 0);
    if bad_premium(word(bytes, 4), premium) {
        return Err(Refusal::Premium);
    }
    if outside(1, premium, word(bytes, 2)) {
        return Err(Refusal::Level);
    }
    if outside(1, Contract::DATES_MOST, word(bytes, 6)) {
        return Err(Refusal::Dates);
    }
    if bad_rates(word(bytes, 8), word(bytes, 10)) {
        return Err(Refusal::Rates);
    }
    if outside(1, Contract::DISCOUNT_MOST, long(bytes, 12)) {
        return Err(Refusal::Discount);
    }
    if bad_step(word(bytes, 16), word(bytes, 18)) {
        return Err(Refusal::Step);
    }
    Ok(())
}

impl Contract {
    pub const BYTES: usize = 20;

    pub const TOP_MOST: usize = 4000;

    pub const DATES_MOST: usize = 40;

    pub const RATE_MOST: usize = 10000;

    pub const DISCOUNT_MOST: usize = 1000000;

    pub const RETURN_BYTES: usize = 4;

    pub const RETURNS_MOST: usize = 64;

    pub const FACTOR_MOST: usize = 30000;

    pub const WEIGHT_MOST: usize = 10000;

    pub const WEIGHT_TOTAL: usize = 10000;

    pub const RATE_BYTES: usize = 2;

    ghost use Rattle.contract.specs.Reading.{reading_tells, terms_in, record_read};

    // A record's bytes as terms in range.
    pub fn read(bytes: &[u8]) -> Result<Contract, Refusal>
        ensures { reading_tells result ≡ record_read bytes.now }
    {
        if bytes.len() != Self::BYTES {
            return Err(Refusal::RecordLength);
        }
        check(bytes)?;
        Ok(Contract {
            premium: word(bytes, 0),
            level: word(bytes, 2),
            top: word(bytes, 4),
            dates: word(bytes, 6),
            fee: word(bytes, 8),
            penalty: word(bytes, 10),
            discount: long(bytes, 12),
            step: word(bytes, 16),
            spare: word(bytes, 18),
        })
    }

    // The entries of a row, of a layer, of a working slice and of a table.
    pub fn stride(self) -> usize
        ensures { result ≡ self.premium + 1 }
    {
        self.premium + 1
    }

    pub fn layer_size(self) -> usize
        ensures { (result ≡ layer_size (terms_in self)) × (result ≤ layer_most) }
    {
        (self.top + 1) * self.stride()
    }

    pub fn work_size(self) -> usize
        ensures { (result ≡ 2 * layer_size (terms_in self)) × (result ≤ 2 * layer_most) }
    {
        2 * self.layer_size()
    }

    pub fn table_size(self) -> usize
        ensures { (result ≡ table_size (terms_in self)) × (result ≤ table_most) }
    {
        (self.dates - 1) * self.layer_size()
    }
}
