// Valuing a contract under one of the three behaviours, with a map of surrender.
#![tactic(auto)]

ghost use Rattle.input.specs.Reading.{input_of};
ghost use Rattle.mapping.specs.Mapped.{told_map, Mapping};

use contract::Refusal;
use input::Input;
use valuing::Valuation;

// What a contract is worth, and the number of set bits.
#[derive(Clone, Copy)]
pub struct Mapped {
    pub valuation: Valuation,
    pub count: u64,
}

// Values a contract and fills the map of its table. Nothing is written before the last check.
pub fn value_map(
    input: Input,
    behaviour: usize,
    work: &mut [u64],
    table: &mut [u16],
    map: &mut [u64],
) -> Result<Mapped, Refusal>
    ensures { Mapping (input_of input.entry) behaviour work.old table.old map.old (told_map result)
        work.new table.new map.new }
{
    let (policy, behaviour) = valuing::check(input, behaviour, &work[..], &table[..])?;
    if map.len() < surrender::map_size(policy.contract) {
        return Err(Refusal::MapShort);
    }
    let valuation = valuing::valued(policy, behaviour, work, table);
    let count = surrender::fill(policy.contract, &table[..], map);
    Ok(Mapped { valuation, count })
}
