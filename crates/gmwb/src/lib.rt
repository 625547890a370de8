// The calls for a C host: numbers and slices in, numbers out, since C has no Result. include/gmwb.h declares them.
#![tactic(auto)]

ghost use Rattle.std.specs.Prelude.{◌≡◌};
ghost use Rattle.rules.specs.Refusals.{verdict, number_of, place_of, record_checks};
ghost use Rattle.rules.specs.Operations.{walk_checks, walk_cashes};
ghost use Rattle.rules.specs.Policy.{living_policy};
ghost use Rattle.rules.specs.Booking.{booking_checks, booking_buffer};
ghost use Rattle.rules.specs.Sizes.{sizes_of, record_policy};
ghost use Rattle.contract.specs.Refusal.{verdict_in};
ghost use Rattle.valuing.specs.Answered.{told};
ghost use Rattle.gmwb.specs.Told.{version, sizes_told, answer_told, ValueTold, NoTableTold, MapTold, FeeTold, TableTold};

use booking::Withdrawal;
use contract::{Contract, Refusal};
use input::Input;
use valuing::Valuation;

// The number that tells a result, and its place.
#[tactic(auto, unfolding(rules::specs::Refusals::number_of))]
fn number_told<T>(outcome: &Result<T, Refusal>) -> u32
    ensures { result ≡ number_of (verdict_in outcome.now) }
{
    match outcome {
        Ok(_) => 0,
        Err(refusal) => refusal.number(),
    }
}

#[tactic(auto, unfolding(rules::specs::Refusals::place_of))]
fn place_told<T>(outcome: &Result<T, Refusal>) -> u64
    ensures { result ≡ place_of (verdict_in outcome.now) }
{
    match outcome {
        Ok(_) => 0,
        Err(refusal) => refusal.place(),
    }
}

// Tells a valuation: returns its number and writes the rest.
fn tell(
    answer: Result<Valuation, Refusal>,
    place: &mut u64,
    value: &mut u64,
    margin: &mut i64,
) -> u32
    ensures { answer_told result place.new value.new margin.new ≡ told answer }
{
    match answer {
        Ok(valuation) => {
            *place = 0;
            *value = valuation.value;
            *margin = valuation.margin;
            0
        }
        Err(refusal) => {
            *place = refusal.place();
            *value = 0;
            *margin = 0;
            refusal.number()
        }
    }
}

// Checks a record. The place of every refusal is 0.
#[tactic(auto, using(laws::specs::Booking::record_places, crate::proofs::Laws::read_verdict))]
#[unsafe(no_mangle)]
pub extern "C" fn gmwb_check(bytes: &[u8]) -> u32
    ensures number { result ≡ number_of (verdict (record_checks bytes.now)) }
    ensures place { place_of (verdict (record_checks bytes.now)) ≡ 0 }
{
    number_told(&Contract::read(bytes))
}

// The edition: GMWB_VERSION of the header that belongs to the archive.
#[unsafe(no_mangle)]
pub extern "C" fn gmwb_version() -> u32
    ensures { result ≡ version }
{
    701
}

// How long the slices of a contract have to be. The place of every refusal is 0.
#[tactic(auto, using(laws::specs::Booking::record_places))]
#[unsafe(no_mangle)]
pub extern "C" fn gmwb_sizes(bytes: &[u8], work: &mut u64, table: &mut u64, map: &mut u64) -> u32
    ensures told { sizes_told result work.new table.new map.new ≡ sizes_of (record_policy bytes.now) }
    ensures place { place_of (verdict (record_checks bytes.now)) ≡ 0 }
{
    match sizes::needed(bytes) {
        Ok(sizes) => {
            *work = sizes.work;
            *table = sizes.table;
            *map = sizes.map;
            0
        }
        Err(refusal) => {
            *work = 0;
            *table = 0;
            *map = 0;
            refusal.number()
        }
    }
}

// Books an amount. The place of every refusal is 0.
#[tactic(auto, using(laws::specs::Booking::booking_places))]
#[unsafe(no_mangle)]
pub extern "C" fn gmwb_book(
    bytes: &[u8],
    date: u64,
    account: u64,
    guarantee: u64,
    amount: u64,
    buffer: &mut [u8],
) -> u32
    ensures number { result ≡ number_of (verdict (booking_checks bytes.now date account guarantee amount buffer.old)) }
    ensures place { place_of (verdict (booking_checks bytes.now date account guarantee amount buffer.old)) ≡ 0 }
    ensures buffer_after { buffer.new ≡ booking_buffer bytes.now date account guarantee amount buffer.old }
{
    let withdrawal = Withdrawal {
        date: date as usize,
        account: account as usize,
        guarantee: guarantee as usize,
        amount: amount as usize,
    };
    number_told(&booking::book(bytes, withdrawal, buffer))
}

// Values a contract under behaviour 0, 1 or 2.
#[unsafe(no_mangle)]
pub extern "C" fn gmwb_value(
    bytes: &[u8],
    list: &[u8],
    rates: &[u8],
    behaviour: u64,
    work: &mut [u64],
    table: &mut [u16],
    place: &mut u64,
    value: &mut u64,
    margin: &mut i64,
) -> u32
    ensures { ValueTold (record { bytes = bytes.entry.now; list = list.now; rates = rates.now }) behaviour
        work.old table.old work.new table.new
        (record { number = result; place = place.new; value = value.new; margin = margin.new }) }
{
    let input = Input { bytes, list, rates };
    let answer = valuing::value(input, behaviour as usize, work, table);
    tell(answer, place, value, margin)
}

// .. with no table.
#[unsafe(no_mangle)]
pub extern "C" fn gmwb_value_no_table(
    bytes: &[u8],
    list: &[u8],
    rates: &[u8],
    behaviour: u64,
    work: &mut [u64],
    place: &mut u64,
    value: &mut u64,
    margin: &mut i64,
) -> u32
    ensures { NoTableTold (record { bytes = bytes.entry.now; list = list.now; rates = rates.now }) behaviour
        work.old work.new
        (record { number = result; place = place.new; value = value.new; margin = margin.new }) }
{
    let input = Input { bytes, list, rates };
    let alone = valuing::value_no_table(input, behaviour as usize, work);
    tell(alone, place, value, margin)
}

// Values a contract and fills the map of surrender of its table.
#[unsafe(no_mangle)]
pub extern "C" fn gmwb_value_map(
    bytes: &[u8],
    list: &[u8],
    rates: &[u8],
    behaviour: u64,
    work: &mut [u64],
    table: &mut [u16],
    map: &mut [u64],
    place: &mut u64,
    value: &mut u64,
    margin: &mut i64,
    count: &mut u64,
) -> u32
    ensures { MapTold (record { bytes = bytes.entry.now; list = list.now; rates = rates.now }) behaviour
        work.old table.old map.old work.new table.new map.new
        (record { number = result; place = place.new; value = value.new; margin = margin.new }) count.new }
{
    let input = Input { bytes, list, rates };
    let mapped = mapping::value_map(input, behaviour as usize, work, table, map);
    *count = mapped.map_or(0, |m| m.count);
    tell(mapped.map(|m| m.valuation), place, value, margin)
}

// Finds the smallest fee whose value is at most `wanted`.
#[unsafe(no_mangle)]
pub extern "C" fn gmwb_fee(
    bytes: &[u8],
    list: &[u8],
    rates: &[u8],
    behaviour: u64,
    wanted: u64,
    work: &mut [u64],
    place: &mut u64,
    fee: &mut u64,
    value: &mut u64,
    margin: &mut i64,
) -> u32
    ensures { FeeTold (record { bytes = bytes.entry.now; list = list.now; rates = rates.now }) behaviour
        wanted work.old work.new
        (record { number = result; place = place.new; value = value.new; margin = margin.new }) fee.new }
{
    let input = Input { bytes, list, rates };
    let priced = pricing::find_fee(input, behaviour as usize, wanted, work);
    *fee = priced.map_or(0, |p| p.fee);
    tell(priced.map(|p| p.valuation), place, value, margin)
}

// Values a supplied table.
#[unsafe(no_mangle)]
pub extern "C" fn gmwb_value_table(
    bytes: &[u8],
    list: &[u8],
    rates: &[u8],
    work: &mut [u64],
    table: &[u16],
    place: &mut u64,
    value: &mut u64,
    margin: &mut i64,
) -> u32
    ensures { TableTold (record { bytes = bytes.entry.now; list = list.now; rates = rates.now })
        work.old table.now work.new
        (record { number = result; place = place.new; value = value.new; margin = margin.new }) }
{
    let input = Input { bytes, list, rates };
    let told = supplied::value(input, work, table);
    tell(told, place, value, margin)
}

// Walks a contract along a path and fills its cash.
#[unsafe(no_mangle)]
pub extern "C" fn gmwb_walk(
    bytes: &[u8],
    list: &[u8],
    table: &[u16],
    path: &[u16],
    cash: &mut [u64],
    place: &mut u64,
) -> u32
    ensures number { result ≡ number_of (verdict (walk_checks (living_policy bytes.now list.now) table.now
        path.now cash.old)) }
    ensures place { place.new ≡ place_of (verdict (walk_checks (living_policy bytes.now list.now)
        table.now path.now cash.old)) }
    ensures cash_after { cash.new ≡ walk_cashes (living_policy bytes.now list.now) table.now
        path.now cash.old }
{
    let outcome = walk::walk(bytes, list, table, path, cash);
    *place = place_told(&outcome);
    number_told(&outcome)
}
