// How long the slices of a contract have to be, by its record.
#![tactic(auto)]

ghost use Rattle.std.specs.Prelude.{◌≡◌};
ghost use Rattle.rules.specs.Sizes.{sizes_of, record_policy};
ghost use Rattle.sizes.specs.Sizes.{sizes_in};

use contract::{Contract, Refusal};

// The entries of a working slice and of a table, and the words of a map.
#[derive(Clone, Copy)]
pub struct Sizes {
    pub work: u64,
    pub table: u64,
    pub map: u64,
}

pub fn needed(bytes: &[u8]) -> Result<Sizes, Refusal>
    ensures { sizes_in result ≡ sizes_of (record_policy bytes.now) }
{
    let contract = Contract::read(bytes)?;
    Ok(Sizes {
        work: contract.work_size() as u64,
        table: contract.table_size() as u64,
        map: surrender::map_size(contract) as u64,
    })
}
