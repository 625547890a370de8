// A line of a script of operations in, its answer out; second/script.rs describes both. It serves the test program and is no
// part of the product, so the contracts are modest: bounds and lengths, and no word of what a line means. What it answers is
// compared with the second program's answers. Entries one by one are read for 16-bit slices only.
#![tactic(auto)]

ghost use Rattle.std.specs.Prelude.{◌≡◌, ◌≤◌, length};

mod entry;
mod words;

use arrayvec::{ArrayString, ArrayVec};
use booking::Withdrawal;
use contract::{Contract, Refusal};
use entry::digest;
use input::Input;
use mapping::Mapped;
use pricing::Priced;
use sizes::Sizes;
use std::fmt::{self, Display, Formatter, Write};
use valuing::Valuation;
use words::{decimal, hex, numbers, parts, slice};

// A line's answer: at most 160 bytes.
pub type Text = ArrayString<160>;

const NOTHING: Valuation = Valuation {
    value: 0,
    margin: 0,
};

// How many entries of a table, of those there is room for, count as the last table. Apart from them: beside a ghost field a slice
// can't be lent in part.
#[derive(Clone, Copy)]
pub struct Held {
    pub entries: usize,
    pub room: usize,
    pub ghost in_table: { entries ≤ room },
}

// The last table: the entries held, the first of those there is room for.
#[derive(Drop)]
pub struct Table<'a> {
    pub entries: &'a mut [u16],
    pub held: Held,
}

// What a line is answered with: room for a working slice, and the last table.
#[derive(Drop)]
pub struct Desk<'a> {
    pub work: &'a mut [u64],
    pub table: Table<'a>,
}

// Number and place as answers print them, 0 and 0 where nothing is refused; gmwb tells them likewise, but to C.
#[derive(Drop)]
struct Outcome {
    number: u32,
    place: u64,
}

impl Outcome {
    fn of<T>(told: &Result<T, Refusal>) -> Outcome {
        match told {
            Ok(_) => Outcome {
                number: 0,
                place: 0,
            },
            Err(refusal) => Outcome {
                number: refusal.number(),
                place: refusal.place(),
            },
        }
    }
}

impl Display for Outcome {
    fn fmt<W: Write>(&self, f: &mut Formatter<W>) -> fmt::Result {
        write!(f, "{} {}", self.number, self.place)
    }
}

// The line of an answer; nothing if it were longer than a text, which none is.
fn line(told: impl Display + Drop) -> Option<Text> {
    let mut text = Text::new();
    writeln!(text, "{told}").ok()?;
    Some(text)
}

impl Table<'_> {
    fn last(&mut self) -> Option<&mut [u16]> {
        let held = self.held.entries;
        self.entries.get_mut(..held)
    }

    // I:V, entry I of the last table set to V.
    fn damage(&mut self, word: &[u8]) -> Option<()> {
        let parts = parts::<3>(word, b':');
        let [i, v] = parts.as_slice() else {
            return None;
        };
        *self.last()?.get_mut(decimal(i)? as usize)? = u16::try_from(decimal(v)?).ok()?;
        Some(())
    }

    // A slice, `=` for the last table, or `=I:V` for the last table with an entry changed. It is the last table then.
    fn read(&mut self, word: &[u8]) -> Option<&mut [u16]> {
        match word {
            b"=" => (),
            [b'=', damage @ ..] => self.damage(damage)?,
            _ => {
                let room = self.entries.len();
                let entries = numbers(word, self.entries)?.len();
                self.held = Held { entries, room };
            }
        }
        self.last()
    }
}

// A record, a list of returns and death rates: each has room for more bytes than any that is accepted.
#[derive(Drop)]
struct Bytes {
    record: ArrayVec<u8, 64>,
    list: ArrayVec<u8, 512>,
    rates: ArrayVec<u8, 128>,
}

impl Bytes {
    fn read(record: &[u8], list: &[u8], rates: &[u8]) -> Option<Bytes> {
        Some(Bytes {
            record: hex(record)?,
            list: hex(list)?,
            rates: hex(rates)?,
        })
    }

    fn input(&self) -> Input<'_> {
        Input {
            bytes: self.record.as_slice(),
            list: self.list.as_slice(),
            rates: self.rates.as_slice(),
        }
    }
}

fn check(words: &[&[u8]]) -> Option<Text> {
    let [record] = words else {
        return None;
    };
    let record = hex::<64>(record)?;
    let told = Contract::read(record.as_slice());
    line(Outcome::of(&told))
}

fn sizes_of(words: &[&[u8]]) -> Option<Text> {
    let [record] = words else {
        return None;
    };
    let record = hex::<64>(record)?;
    let told = sizes::needed(record.as_slice());
    let outcome = Outcome::of(&told);
    let Sizes { work, table, map } = told.unwrap_or(Sizes {
        work: 0,
        table: 0,
        map: 0,
    });
    line(format_args!("{outcome} {work} {table} {map}"))
}

fn book(words: &[&[u8]]) -> Option<Text> {
    let [record, date, account, guarantee, amount, buffer] = words else {
        return None;
    };
    let record = hex::<64>(record)?;
    let withdrawal = Withdrawal {
        date: decimal(date)? as usize,
        account: decimal(account)? as usize,
        guarantee: decimal(guarantee)? as usize,
        amount: decimal(amount)? as usize,
    };
    let mut room = [0u8; 64];
    let buffer = slice(buffer, &mut room)?;
    let told = booking::book(record.as_slice(), withdrawal, buffer);
    line(format_args!("{} {}", Outcome::of(&told), digest(buffer)))
}

impl Desk<'_> {
    fn value(&mut self, words: &[&[u8]]) -> Option<Text> {
        let [record, list, rates, behaviour, work, table] = words else {
            return None;
        };
        let bytes = Bytes::read(record, list, rates)?;
        let behaviour = decimal(behaviour)? as usize;
        let work = slice(work, self.work)?;
        let table = self.table.read(table)?;
        let told = valuing::value(bytes.input(), behaviour, work, table);
        let outcome = Outcome::of(&told);
        let Valuation { value, margin } = told.unwrap_or(NOTHING);
        line(format_args!(
            "{outcome} {value} {margin} {} {}",
            digest(work),
            digest(table)
        ))
    }

    fn value_no_table(&mut self, words: &[&[u8]]) -> Option<Text> {
        let [record, list, rates, behaviour, work] = words else {
            return None;
        };
        let bytes = Bytes::read(record, list, rates)?;
        let behaviour = decimal(behaviour)? as usize;
        let work = slice(work, self.work)?;
        let told = valuing::value_no_table(bytes.input(), behaviour, work);
        let outcome = Outcome::of(&told);
        let Valuation { value, margin } = told.unwrap_or(NOTHING);
        line(format_args!("{outcome} {value} {margin} {}", digest(work)))
    }

    fn value_map(&mut self, words: &[&[u8]]) -> Option<Text> {
        let [record, list, rates, behaviour, work, table, map] = words else {
            return None;
        };
        let bytes = Bytes::read(record, list, rates)?;
        let behaviour = decimal(behaviour)? as usize;
        let work = slice(work, self.work)?;
        let table = self.table.read(table)?;
        let mut room = [0u64; 2048];
        let map = slice(map, &mut room)?;
        let told = mapping::value_map(bytes.input(), behaviour, work, table, map);
        let outcome = Outcome::of(&told);
        let Mapped { valuation, count } = told.unwrap_or(Mapped {
            valuation: NOTHING,
            count: 0,
        });
        let Valuation { value, margin } = valuation;
        line(format_args!(
            "{outcome} {value} {margin} {count} {} {} {}",
            digest(work),
            digest(table),
            digest(map)
        ))
    }

    fn fee(&mut self, words: &[&[u8]]) -> Option<Text> {
        let [record, list, rates, behaviour, wanted, work] = words else {
            return None;
        };
        let bytes = Bytes::read(record, list, rates)?;
        let behaviour = decimal(behaviour)? as usize;
        let wanted = decimal(wanted)?;
        let work = slice(work, self.work)?;
        let told = pricing::find_fee(bytes.input(), behaviour, wanted, work);
        let outcome = Outcome::of(&told);
        let Priced { valuation, fee } = told.unwrap_or(Priced {
            valuation: NOTHING,
            fee: 0,
        });
        let Valuation { value, margin } = valuation;
        line(format_args!("{outcome} {fee} {value} {margin} {}", digest(work)))
    }

    fn value_table(&mut self, words: &[&[u8]]) -> Option<Text> {
        let [record, list, rates, work, table] = words else {
            return None;
        };
        let bytes = Bytes::read(record, list, rates)?;
        let work = slice(work, self.work)?;
        let table = self.table.read(table)?;
        let told = supplied::value(bytes.input(), work, table);
        let outcome = Outcome::of(&told);
        let Valuation { value, margin } = told.unwrap_or(NOTHING);
        line(format_args!(
            "{outcome} {value} {margin} {} {}",
            digest(work),
            digest(table)
        ))
    }

    // A walk has no death rates, and puts its cash in the working slice.
    fn walk(&mut self, words: &[&[u8]]) -> Option<Text> {
        let [record, list, table, path, cash] = words else {
            return None;
        };
        let (record, list) = (hex::<64>(record)?, hex::<512>(list)?);
        let table = self.table.read(table)?;
        let mut room = [0u16; 64];
        let path = numbers(path, &mut room)?;
        let cash = slice(cash, self.work)?;
        let told = walk::walk(record.as_slice(), list.as_slice(), table, path, cash);
        line(format_args!("{} {} {}", Outcome::of(&told), digest(table), digest(cash)))
    }

    // Nothing, if the line is not understood.
    fn told(&mut self, line: &[u8]) -> Option<Text> {
        let parts = parts::<9>(line, b' ');
        let (name, words) = parts.as_slice().split_first()?;
        match *name {
            b"check" => check(words),
            b"sizes" => sizes_of(words),
            b"book" => book(words),
            b"value" => self.value(words),
            b"value_no_table" => self.value_no_table(words),
            b"value_map" => self.value_map(words),
            b"fee" => self.fee(words),
            b"value_table" => self.value_table(words),
            b"walk" => self.walk(words),
            _ => None,
        }
    }

    // A blank line and a comment get no answer, and a line that is not understood leaves no table.
    fn answered(&mut self, line: &[u8]) -> Text {
        let mut text = Text::new();
        if matches!(line, [] | [b'#', ..]) {
            return text;
        }
        if let Some(told) = self.told(line) {
            return told;
        }
        self.table.held = Held {
            entries: 0,
            room: 0,
        };
        text.push_str("error\n");
        text
    }

    // Answers a line. The last table lies then within the slice that was lent, and within the one that is there.
    pub fn answer(&mut self, line: &[u8]) -> Text
        ensures { (self.new.table.held.room ≤ length self.old.table.entries.now)
            × (self.new.table.held.room ≤ length self.new.table.entries.now) }
    {
        let lent = self.table.entries.len();
        let text = self.answered(line);
        let room = usize::min(lent, self.table.entries.len());
        let entries = usize::min(self.table.held.entries, room);
        self.table.held = Held { entries, room };
        text
    }
}
