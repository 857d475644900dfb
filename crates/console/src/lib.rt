// The program's words, messages and script interpreter, as a library.
#![tactic(auto)]

pub mod assembly;
pub mod command;
pub mod example;
pub mod failure;
pub mod help;
pub mod hexadecimal;
pub mod host_data;
pub mod host_words;
pub mod listing_text;
pub mod messages;
pub mod readable;
pub mod rule;
pub mod runs;
pub mod script;
pub mod session;
pub mod text;
pub mod words;
