// The book check on books for each rule of the format: a row for each book, with its name and what the check answers. The cases are a script on
// standard input.
#![tactic(auto)]

mod rows;

use cases::buffer::Buffer;
use cases::script::each_line;
use std::io;

fn main(rt: HostRuntime) -> io::Result<()> {
    let mut book = Buffer::new();
    each_line(&rt, |line| rows::row(&rt, &mut book, line))
}
