// What the programs that try cases share: scripts of cases, books written as text and put together in a buffer, and those of the papers.
#![tactic(auto)]

pub mod books;
pub mod buffer;
pub mod case;
pub mod console;
pub mod items;
pub mod script;
pub mod text;
pub mod values;
