//! A consumer's side: the inbox that takes each event in once, and the consumer that fills it.
#![tactic(auto)]

mod consumer;
mod cursors;
mod fault;
mod fetcher;
mod inbox;
mod inbox_row;
mod inbox_table;
mod intake;
mod laws;
mod origin;
mod rows;
mod tick;

pub use consumer::Consumer;
pub use cursors::{Cursor, Standing};
pub use fault::InboxFault;
pub use fetcher::{Fetcher, Subscription};
pub use inbox::{Inbox, TakeIn};
pub use inbox_row::InboxRow;
pub use laws::an_inbox_is_what_was_taken_in;
pub use tick::Tick;
