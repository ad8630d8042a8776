// A site and its calls as words.
#![tactic(auto)]

ghost use Rattle.std.specs.Prelude.{◌≡◌, ◌+◌, ◌^◌, ◌<◌, length, slice_index, Some, IfOk, IfSome};
ghost use Rattle.protocol.specs.declared.call.Call.TheVariants.{Write as WriteCall, Bring as BringCall};
ghost use Rattle.script.specs.Scripts.{number_at, bad_from, plan_at, unless, call_at, call_size, opening_of, next_call, next_index};
ghost use Rattle.script.specs.Texts.{bad_word_text};

use crate::call_kind::CallKind;
use plans::Plan;
use protocol::call::Call;
use protocol::kind::MailKind;
use std::fmt;
use words::{kind, number};

mod call_kind;

// A word that is missing, short or wrong, by its index.
#[derive(Clone, Copy, PartialEq, Eq, Debug)]
pub struct BadWord {
    pub index: usize,
}

impl fmt::Display for BadWord {
    ghost output = { λ bad. Some (bad_word_text bad.index) };

    fn fmt<W: fmt::Write>(&self, f: &mut fmt::Formatter<W>) -> fmt::Result {
        write!(f, "bad word {}", self.index)
    }
}

// What a site is made with.
#[derive(Clone, Copy, PartialEq, Eq, Debug)]
pub struct Opening {
    pub heads: u32,
    pub delay: u32,
    pub swap_limit: u32,
    pub start: Plan,
}

// Stands before the word `at`; `short` says that one to three bytes follow the last word.
#[derive(Clone, Copy)]
pub struct Script<'a> {
    words: &'a [u32],
    short: bool,
    at: usize,
    // the few words behind `at` have an index too
    ghost small: { at < 2 ^ 63 },
}

impl<'a> Script<'a> {
    ghost use Rattle.script.specs.Openings.{Opened};

    // The site that the first six words make, and a reader of the calls behind them.
    pub fn open(words: &'a [u32], short: bool) -> Result<(Opening, Script<'a>), BadWord>
        ensures { Opened words.now short result }
    {
        let opening = read_opening(words)?;
        let calls = Script {
            words,
            short,
            at: 6,
        };
        Ok((opening, calls))
    }

    // The next call, no call at the end, or the first bad word; then it stays where it is. It is no Iterator: a loop over it would not end at a bad word.
    pub fn next(&mut self) -> Result<Option<Call<Plan>>, BadWord>
        ensures call { result ≡ next_call self.old.words.now self.old.short self.old.at }
        ensures moved { self.new.at ≡ next_index self.old.at result }
        ensures onward { IfOk result (λ told. IfSome told (λ _. (self.old.at < length self.old.words.now) × (self.old.at < self.new.at))) }
        ensures kept { (self.new.words ≡ self.old.words) × (self.new.short ≡ self.old.short) }
    {
        let call = self.call_or_end()?;
        if let Some(call) = call {
            self.at += size_of_call(&call);
        }
        Ok(call)
    }

    // What comes next: a call, a bad word or the end.
    fn call_or_end(&self) -> Result<Option<Call<Plan>>, BadWord>
        ensures { result ≡ next_call self.now.words.now self.now.short self.now.at }
    {
        match self.words.get(self.at) {
            Some(&first) => self.read_call(first).map(Some),
            None if self.short => Err(BadWord {
                index: self.words.len(),
            }),
            None => Ok(None),
        }
    }

    // The call whose first word comes next.
    fn read_call(&self, first: u32) -> Result<Call<Plan>, BadWord>
        requires { first ≡ slice_index self.now.words.now self.now.at }
        ensures { result ≡ call_at self.now.words.now self.now.at }
    {
        let bad = BadWord { index: self.at };
        let name = number(first);
        match CallKind::try_from(kind(first)).map_err(|_| bad)? {
            CallKind::Swap => Ok(Call::Swap { name }),
            CallKind::Read => Ok(Call::Read { name }),
            CallKind::Write => self.read_write(name),
            CallKind::Bring(kind) => self.read_bring(kind, name),
            CallKind::Tick if name == 0 => Ok(Call::Tick),
            CallKind::Tick => Err(bad),
        }
    }

    // The write by this head, whose plan stands behind the next word.
    fn read_write(&self, name: u32) -> Result<Call<Plan>, BadWord>
        ensures { result ≡ unless (bad_from self.now.words.now 4 (self.now.at + 1) 3) (WriteCall name (plan_at self.now.words.now (self.now.at + 1))) }
    {
        let value = read_plan(self.words, self.at + 1)?;
        Ok(Call::Write { name, value })
    }

    // The bring from this sender, whose receiver stands behind the next word.
    fn read_bring(&self, kind: MailKind, sender: u32) -> Result<Call<Plan>, BadWord>
        ensures { result ≡ unless (bad_from self.now.words.now 2 (self.now.at + 1) 1) (BringCall kind sender (number_at self.now.words.now (self.now.at + 1))) }
    {
        let receiver = read_number(self.words, 2, self.at + 1)?;
        Ok(Call::Bring {
            kind,
            sender,
            receiver,
        })
    }
}

// What the first six words make.
fn read_opening(words: &[u32]) -> Result<Opening, BadWord>
    ensures { result ≡ opening_of words.now }
{
    Ok(Opening {
        heads: read_number(words, 0, 0)?,
        delay: read_number(words, 0, 1)?,
        swap_limit: read_number(words, 0, 2)?,
        start: read_plan(words, 3)?,
    })
}

// The plan in three words from the index on.
fn read_plan(words: &[u32], from: usize) -> Result<Plan, BadWord>
    requires { from + 2 < 2 ^ 64 }
    ensures { result ≡ unless (bad_from words.now 4 from 3) (plan_at words.now from) }
{
    Ok(Plan {
        cycle: read_number(words, 4, from)?,
        offset: read_number(words, 4, from + 1)?,
        green: read_number(words, 4, from + 2)?,
    })
}

// The number of the word at the index, if there is a word of this kind.
fn read_number(words: &[u32], wanted: u32, index: usize) -> Result<u32, BadWord>
    ensures { result ≡ unless (bad_from words.now wanted index 1) (number_at words.now index) }
{
    match words.get(index) {
        Some(&word) if kind(word) == wanted => Ok(number(word)),
        _ => Err(BadWord { index }),
    }
}

// How many words tell the call.
fn size_of_call(call: &Call<Plan>) -> usize
    ensures { result ≡ call_size call.now }
{
    match *call {
        Call::Write { .. } => 4,
        Call::Bring { .. } => 2,
        Call::Swap { .. } | Call::Read { .. } | Call::Look { .. } | Call::Tick => 1,
    }
}

// The private functions, by the words of the tests in scripttests, which go through `open` and `next`.
#[cfg(test)]
mod tests {
    use super::*;

    const SITE: [u32; 6] = [4, 1, 1, 0x4000_005a, 0x4000_000a, 0x4000_0028];

    // What comes at the index.
    fn call_at_or_end(words: &[u32], short: bool, at: usize) -> Result<Option<Call<Plan>>, BadWord>
        requires { at < 2 ^ 63 }
    {
        Script { words, short, at }.call_or_end()
    }

    // Whether the six words make a site, or the first bad word.
    fn opened(words: &[u32]) -> Result<(), BadWord> {
        Script::open(words, false).map(|_| ())
    }

    #[test]
    fn the_first_six_words(rt: HostRuntime) {
        for length in 0..6 {
            assert_eq!(rt; opened(&SITE[0..length]), Err(BadWord { index: length }));
        }
        assert_eq!(rt; opened(&SITE), Ok(()));
        for i in 0..6 {
            let mut words = SITE;
            words[i] = 0x5000_0000;
            assert_eq!(rt; opened(&words), Err(BadWord { index: i }));
        }
        let start = Plan {
            cycle: 90,
            offset: 10,
            green: 40,
        };
        assert_eq!(rt;
            read_opening(&SITE),
            Ok(Opening {
                heads: 4,
                delay: 1,
                swap_limit: 1,
                start,
            })
        );
    }

    // Each row: the words of a call, and the call or the index of the bad word.
    #[test]
    fn calls_by_their_words(rt: HostRuntime) {
        let value = Plan {
            cycle: 100,
            offset: 20,
            green: 50,
        };
        let table = [
            ([0x9000_0002, 0, 0, 0], Ok(Call::Swap { name: 2 })),
            ([0xafff_ffff, 0, 0, 0], Ok(Call::Read { name: 0x0fff_ffff })),
            (
                [0xb000_0001, 0x4000_0064, 0x4000_0014, 0x4000_0032],
                Ok(Call::Write { name: 1, value }),
            ),
            (
                [0xb000_0001, 0x4000_0064, 0x5000_0014, 0x4000_0032],
                Err(BadWord { index: 2 }),
            ),
            (
                [0xc000_0001, 0x2000_0003, 0, 0],
                Ok(Call::Bring {
                    kind: MailKind::Write,
                    sender: 1,
                    receiver: 3,
                }),
            ),
            (
                [0xd000_0005, 0x2000_0001, 0, 0],
                Ok(Call::Bring {
                    kind: MailKind::Inquiry,
                    sender: 5,
                    receiver: 1,
                }),
            ),
            (
                [0xe000_0001, 0x2000_0005, 0, 0],
                Ok(Call::Bring {
                    kind: MailKind::Reply,
                    sender: 1,
                    receiver: 5,
                }),
            ),
            ([0xe000_0001, 0x3000_0005, 0, 0], Err(BadWord { index: 1 })),
            ([0xf000_0000, 0, 0, 0], Ok(Call::Tick)),
            ([0xf000_0001, 0, 0, 0], Err(BadWord { index: 0 })),
            ([0x8000_0001, 0, 0, 0], Err(BadWord { index: 0 })),
        ];
        for (words, expected) in table {
            let script = Script {
                words: &words,
                short: false,
                at: 0,
            };
            assert_eq!(rt; script.read_call(words[0]), expected);
        }
    }

    #[test]
    fn the_end_and_what_is_cut(rt: HostRuntime) {
        assert_eq!(rt; call_at_or_end(&[], false, 0), Ok(None));
        assert_eq!(rt; call_at_or_end(&[], true, 0), Err(BadWord { index: 0 }));
        assert_eq!(rt;
            call_at_or_end(&[0xb000_0001], false, 0),
            Err(BadWord { index: 1 })
        );
        assert_eq!(rt;
            call_at_or_end(&[0xb000_0001, 0x4000_0064], true, 0),
            Err(BadWord { index: 2 })
        );
        assert_eq!(rt;
            call_at_or_end(&[0xf000_0000, 0xc000_0001], false, 1),
            Err(BadWord { index: 2 })
        );
    }
}
