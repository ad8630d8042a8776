// Runs a site of plans by a list of calls in words, and prints a line for each call.
#![tactic(auto)]

use card::{bytes_of, fill_words, left_over};
use plans::Plan;
use protocol::state::HeadState;
use records::copied::Copied;
use records::names::Names;
use register::{make, perform};
use script::{BadWord, Opening, Script};
use site::site::Site;
use sitelines::{bad_word_line, call_line, make_line};
use std::io::Read;
use std::{env, fs};
use tables::head::Head;
use tables::mail::MailPlace;
use wordlog::log::WordLog;

// One place more than a site can have, so that a site of too many heads is refused as such.
const HEAD_PLACES: usize = 65;

// Enough for 64 heads.
const MAIL_PLACES: usize = 4096;

// No place means anything before the site is made.
const NO_COPY: Copied<Plan> = Copied {
    stamp: -1,
    value: Plan {
        cycle: 0,
        offset: 0,
        green: 0,
    },
};

fn main(rt: HostRuntime) -> anyhow::Result<()> {
    run(&rt)
}

// Reads the words, runs the shift, and writes the log's words to the file that the argument names.
fn run(rt: &HostRuntime) -> anyhow::Result<()> {
    let mut bytes = Vec::new(rt.alloc());
    rt.stdin().take(65_536).read_to_end(&mut bytes)?;
    // the program's own arrays, by a rule of this project
    let mut words = [0u32; 16_384];
    let count = fill_words(&bytes, &mut words);
    let short = left_over(&bytes) > 0;
    let mut log_words = [0u32; 4096];
    let mut log = WordLog::open(&mut log_words);
    run_script(rt, &words[..count], short, &mut log)?;
    if let Some(path) = env::args(rt)?.nth(1) {
        let card = bytes_of(rt.alloc(), log.filled_words())?;
        fs::write(rt, path.as_str(), card.as_slice())?;
    }
    Ok(())
}

fn run_script(
    rt: &HostRuntime,
    words: &[u32],
    short: bool,
    log: &mut WordLog<Plan>,
) -> anyhow::Result<()> {
    match Script::open(words, short) {
        Ok((opening, calls)) => run_site(rt, opening, calls, log),
        Err(bad) => tell_bad_word(rt, bad),
    }
}

// Makes a site over places of its own, as many as its heads need, and runs its calls.
fn run_site(
    rt: &HostRuntime,
    opening: Opening,
    calls: Script,
    log: &mut WordLog<Plan>,
) -> anyhow::Result<()> {
    // the cast loses nothing, which is proved
    let size = HEAD_PLACES.min(opening.heads as usize);
    let head = Head {
        name: 0,
        state: HeadState::Listening,
        copy: NO_COPY,
        swap_tick: 0,
        inquiry_tick: 0,
        best: NO_COPY,
        held: Names::new(),
    };
    let place = MailPlace {
        kind: None,
        sender: 0,
        receiver: 0,
        sent: 0,
        copy: NO_COPY,
    };
    // arrays, since they need no memory that may be wanting
    let mut head_places = [head; HEAD_PLACES];
    let mut mail_places = [place; MAIL_PLACES];
    let heads = &mut head_places[..size];
    let mail = &mut mail_places[..MAIL_PLACES.min(size * size)];
    let made = make(
        heads,
        mail,
        log,
        opening.delay,
        opening.swap_limit,
        opening.start,
    );
    rt.println(make_line(rt.alloc(), &made)?)?;
    let Ok(site) = made else {
        return Ok(());
    };
    let mut shift = Shift {
        site,
        heads,
        mail,
        log,
    };
    shift.run(rt, calls)
}

// A site with its tables and its log, which are lent to it.
#[derive(Drop)]
struct Shift<'a, 'b> {
    site: Site,
    heads: &'a mut [Head<Plan>],
    mail: &'a mut [MailPlace<Plan>],
    log: &'a mut WordLog<'b, Plan>,
}

impl Shift<'_, '_> {
    // Performs the calls up to the end or the first bad word, which the script then tells again.
    fn run(&mut self, rt: &HostRuntime, mut calls: Script) -> anyhow::Result<()> {
        while let Ok(Some(call)) = calls.next() {
            let answer = perform(&mut self.site, self.heads, self.mail, self.log, &call);
            rt.println(call_line(rt.alloc(), &call, &answer)?)?;
        }
        if let Err(bad) = calls.next() {
            tell_bad_word(rt, bad)?;
        }
        Ok(())
    }
}

fn tell_bad_word(rt: &HostRuntime, bad: BadWord) -> anyhow::Result<()> {
    rt.println(bad_word_line(rt.alloc(), bad.index)?)?;
    Ok(())
}
