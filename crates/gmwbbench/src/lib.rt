// The call for the benchmark: a valuation with no table. It is no part of the library for C hosts.
#![tactic(auto)]

ghost use Rattle.gmwbbench.specs.Told.{NoTableTold};

use input::Input;

// A twin of gmwb's call of this name, in an archive of its own: its C interface tells the value alone.
#[unsafe(no_mangle)]
pub extern "C" fn gmwb_value_no_table(
    bytes: &[u8],
    list: &[u8],
    rates: &[u8],
    behaviour: u64,
    work: &mut [u64],
    value: &mut u64,
) -> u32
    ensures { NoTableTold (record { bytes = bytes.entry.now; list = list.now; rates = rates.now }) behaviour
        work.old result value.new work.new }
{
    let input = Input { bytes, list, rates };
    match valuing::value_no_table(input, behaviour as usize, work) {
        Ok(valuation) => {
            *value = valuation.value;
            0
        }
        Err(refusal) => {
            *value = 0;
            refusal.number()
        }
    }
}
