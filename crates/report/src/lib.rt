// What the program prints for a record and a list, as bytes in a lent buffer. The contracts name the most bytes that a text
// may take: 20 for a number, 126 for the line of a return.
#![tactic(auto)]

ghost use Rattle.std.specs.Prelude.{◌≡◌, [], ◌∷◌, ◌++◌, ◌+◌, ◌*◌, ◌≤◌, ◌<◌, length, take, drop, IfOk};
ghost use Rattle.rules.specs.Contract.{terms_of, returns_of, rate_bytes, dates_most};
ghost use Rattle.rules.specs.Date.{static, mixed, dynamic};
ghost use Rattle.rules.specs.Refusals.{verdict, on_success, record_checks};
ghost use Rattle.rules.specs.Printed.{digits, decimal, numbered, line, name_of, refused_word, lines_of, line_count};
ghost use Rattle.rules.specs.Printed.{program_of, program_verdict, printed};
ghost use Rattle.contract.specs.Refusal.{number_in, place_in, verdict_in};
ghost use Rattle.contract.specs.Reading.{terms_in};
ghost use Rattle.report.specs.Text.{Put, Room, Counts};
ghost use Rattle.report.specs.Tables.{table_line, Tabled, Filled, Valued, table_left, work_left};

use contract::{Contract, Refusal};
use input::{Agreement, Input};

const WORK: usize = 4096;

const TABLE: usize = 16384;

// Text in a lent buffer, up to `at`: there is no heap, and the caller has the room.
#[derive(Drop)]
struct Text<'a> {
    bytes: &'a mut [u8],
    at: usize,
}

impl Text<'_> {
    fn byte(&mut self, b: u8)
        requires { Room 1 self.old }
        ensures { Put 1 self.old (b ∷ []) self.new }
    {
        self.bytes[self.at] = b;
        self.at += 1;
    }

    // The digits of x, where there are no more than `places`. By recursion: `itoa` would add a library and a second buffer, and
    // `write!` to a buffer ensures no text.
    fn digits(&mut self, places: usize, x: u64)
        requires { Room places self.old }
        ensures { Put places self.old (digits places x) self.new }
    {
        if places == 0 {
            return;
        }
        if 10 <= x {
            self.digits(places - 1, x / 10);
        }
        self.byte(b'0' + (x % 10) as u8);
    }

    // A space and x.
    fn number(&mut self, x: u64)
        requires { Room 21 self.old }
        ensures { Put 21 self.old (32 ∷ decimal x) self.new }
    {
        self.byte(b' ');
        self.digits(20, x);
    }

    // What a line ends with.
    fn numbers(&mut self, numbers: &[u64])
        requires { Room (21 * length numbers.now + 1) self.old }
        ensures { Put (21 * length numbers.now + 1) self.old (numbered numbers.now) self.new }
    {
        for &x in numbers {
            self.number(x);
        }
        self.byte(b'\n');
    }

    fn word(&mut self, word: &[u8])
        requires { Room (length word.now) self.old }
        ensures { Put (length word.now) self.old word.now self.new }
    {
        for &b in word {
            self.byte(b);
        }
    }

    fn line(&mut self, word: &[u8], numbers: &[u64])
        requires { Room (length word.now + (21 * length numbers.now + 1)) self.old }
        ensures { Put (length word.now + (21 * length numbers.now + 1)) self.old (line word.now numbers.now) self.new }
    {
        self.word(word);
        self.numbers(numbers);
    }

    // The only line of a refusal.
    fn refusal(&mut self, refusal: Refusal)
        requires { Room 50 self.old }
        ensures { Put 50 self.old (line refused_word (number_in refusal ∷ place_in refusal ∷ [])) self.new }
    {
        self.line(b"refused", &[u64::from(refusal.number()), refusal.place()]);
    }

    // The three lines of the values.
    fn values(&mut self, values: Values)
        requires { Room 84 self.old }
        ensures { Put 84 self.old (line (name_of static) (values.statics ∷ []) ++ line (name_of mixed) (values.mixeds ∷ [])
            ++ line (name_of dynamic) (values.dynamics ∷ [])) self.new }
    {
        self.line(b"static", &[values.statics]);
        self.line(b"mixed", &[values.mixeds]);
        self.line(b"dynamic", &[values.dynamics]);
    }
}

// A contract and its returns, and tables with room for every decision date.
#[derive(Clone, Copy)]
struct Tables<'a> {
    agreement: Agreement<'a>,
    statics: &'a [u16],
    mixeds: &'a [u16],
    dynamics: &'a [u16],
    ghost tabled: { Tabled (terms_in agreement.contract) statics.now mixeds.now dynamics.now },
}

impl Tables<'_> {
    ghost use Rattle.report.specs.Printing.{line_in, line_count_in};

    // The line of return k, with the amounts that the tables hold.
    fn line(&self, text: &mut Text, k: usize)
        requires within { (k < (returns_of self.now.agreement.list.now).count) × (2 ≤ self.now.agreement.contract.dates) }
        requires room { Room 126 text.old }
        ensures { Put 126 text.old (line_in self.now k) text.new }
    {
        let c = self.agreement.contract;
        let factor = input::factor_of(self.agreement.list, k);
        let account = date::next_account(c.fee, c.top, c.premium, factor);
        let entry = account * c.stride() + c.premium;
        text.digits(20, k as u64);
        text.numbers(&[
            account as u64,
            c.premium as u64,
            u64::from(self.statics[entry]),
            u64::from(self.mixeds[entry]),
            u64::from(self.dynamics[entry]),
        ]);
    }

    // The lines of the returns, none without a decision date.
    fn lines(&self, text: &mut Text)
        requires { Room 8064 text.old }
        ensures { Put 8064 text.old (lines_of (line_in self.now) (line_count_in self.now)) text.new }
    {
        if self.agreement.contract.dates < 2 {
            return;
        }
        for k in 0..input::returns_in(self.agreement.list) {
            self.line(text, k);
        }
    }
}

// The contract's values under the three behaviours.
#[derive(Clone, Copy)]
struct Values {
    statics: u64,
    mixeds: u64,
    dynamics: u64,
}

// The bytes of N death rates; none for a record that is refused.
fn rates_length(bytes: &[u8]) -> usize
    ensures { (result ≡ on_success (verdict (record_checks bytes.now)) (rate_bytes * (terms_of bytes.now).dates) 0)
        × (result ≤ rate_bytes * dates_most) }
{
    match Contract::read(bytes) {
        Ok(c) => Contract::RATE_BYTES * c.dates,
        Err(_) => 0,
    }
}

// Values the contract three times, at rates of zero: behaviours 0 to 2. Three names, here and below: an array by number is no plainer.
fn value_all(
    bytes: &[u8],
    list: &[u8],
    work: &mut [u64; WORK],
    statics: &mut [u16; TABLE],
    mixeds: &mut [u16; TABLE],
    dynamics: &mut [u16; TABLE],
) -> Result<Values, Refusal>
    ensures verdict { verdict_in result ≡ program_verdict bytes.now list.now }
    ensures values { IfOk result (λ v. Valued (program_of bytes.now list.now).product v.statics v.mixeds v.dynamics) }
    ensures work_after { work.new ≡ work_left bytes.now list.now dynamic work.old }
    ensures statics_after { statics.new ≡ table_left bytes.now list.now static statics.old }
    ensures mixeds_after { mixeds.new ≡ table_left bytes.now list.now mixed mixeds.old }
    ensures dynamics_after { dynamics.new ≡ table_left bytes.now list.now dynamic dynamics.old }
{
    let zeros = [0u8; Contract::RATE_BYTES * Contract::DATES_MOST];
    let n = rates_length(bytes);
    let input = Input {
        bytes,
        list,
        rates: &zeros[..n],
    };
    let statics = valuing::value(input, 0, work, statics)?.value;
    let mixeds = valuing::value(input, 1, work, mixeds)?.value;
    let dynamics = valuing::value(input, 2, work, dynamics)?.value;
    Ok(Values {
        statics,
        mixeds,
        dynamics,
    })
}

// The lines of the tables that a valuation leaves.
fn all_lines(
    text: &mut Text,
    bytes: &[u8],
    list: &[u8],
    statics: &[u16],
    mixeds: &[u16],
    dynamics: &[u16],
)
    requires filled { Filled bytes.now list.now statics.now mixeds.now dynamics.now }
    requires room { Room 8064 text.old }
    ensures { Put 8064 text.old
        (lines_of
        (table_line (terms_of bytes.now) (returns_of list.now) statics.now mixeds.now dynamics.now)
        (line_count (program_of bytes.now list.now).product))
        text.new }
{
    if let Ok(agreement) = Agreement::read(bytes, list) {
        let tables = Tables {
            agreement,
            statics,
            mixeds,
            dynamics,
        };
        tables.lines(text);
    }
}

// Puts what is printed at the start of the buffer, and answers its length.
pub fn print(
    bytes: &[u8],
    list: &[u8],
    work: &mut [u64; WORK],
    statics: &mut [u16; TABLE],
    mixeds: &mut [u16; TABLE],
    dynamics: &mut [u16; TABLE],
    out: &mut [u8; 8192],
) -> usize
    ensures text { take result out.new ≡ printed bytes.now list.now }
    ensures counts { Counts result out.new }
    ensures rest { drop result out.new ≡ drop result out.old }
    ensures work_after { work.new ≡ work_left bytes.now list.now dynamic work.old }
    ensures statics_after { statics.new ≡ table_left bytes.now list.now static statics.old }
    ensures mixeds_after { mixeds.new ≡ table_left bytes.now list.now mixed mixeds.old }
    ensures dynamics_after { dynamics.new ≡ table_left bytes.now list.now dynamic dynamics.old }
{
    let mut text = Text { bytes: out, at: 0 };
    match value_all(bytes, list, work, statics, mixeds, dynamics) {
        Ok(values) => {
            text.values(values);
            all_lines(&mut text, bytes, list, statics, mixeds, dynamics);
        }
        Err(refusal) => text.refusal(refusal),
    }
    text.at
}
