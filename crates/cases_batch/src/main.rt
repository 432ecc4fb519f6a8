// Batches of lines read against books: a row for each, with its name, how many values are lent, what comes back, and the values that were written. All others
// of the buffer are as they were. The cases are a script on standard input.
#![tactic(auto)]

mod rows;

use cases::script::each_line;
use rows::Buffers;
use std::io;

fn main(rt: HostRuntime) -> io::Result<()> {
    let mut buffers = Buffers::new();
    each_line(&rt, |line| buffers.take_line(&rt, line))
}
