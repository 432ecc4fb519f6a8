// Listings of lines read against books: for each case a row with its name and what rendering gave, and behind it the listing. But for refusals that are given,
// the cases are a script on standard input.
#![tactic(auto)]

mod refusals;
mod rooms;
mod rows;

use cases::script::each_line;
use rows::Setting;
use std::io;

fn main(rt: HostRuntime) -> io::Result<()> {
    refusals::list_refusals(&rt)?;
    let mut setting = Setting::new();
    each_line(&rt, |line| setting.take_line(&rt, line))
}
