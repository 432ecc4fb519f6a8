// Lines read against books: a row for each, with its name and what the reader answers. The cases are a script on standard input.
#![tactic(auto)]

mod rows;

use cases::script::each_line;
use rows::Setting;
use std::io;

fn main(rt: HostRuntime) -> io::Result<()> {
    let mut setting = Setting::new();
    each_line(&rt, |line| setting.take_line(&rt, line))
}
