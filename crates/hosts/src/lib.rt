// Hosts, which answer the questions of rules: what is known of every host, the listing, the sheet, and answers as nodes.
#![tactic(auto)]

pub mod host;
pub mod line;
pub mod listing;
pub mod reading;
pub mod reply;
pub mod sheet;
pub mod version;
