//! Answers about a cluster's own access rules: the reading of bindings and of questions, and the
//! answers.
#![tactic(auto)]

mod access;
mod answer;
mod asked;
mod at_hand;
mod cells;
mod changes;
mod commands;
mod drafts;
mod encoding;
mod hints;
mod holdings;
mod idle;
mod item;
mod joined;
mod judge;
mod laws;
mod lines;
mod listing;
mod log_answer;
mod log_line;
mod log_reading;
mod may_words;
mod moved;
mod nearest;
mod objects;
mod options;
mod origin;
mod other_operations;
mod parts;
mod pieces;
mod policy;
mod printed;
mod properties;
mod question;
mod question_words;
mod quoted;
mod reaches;
mod reading;
mod release;
mod remarks;
mod rights;
mod rows;
mod serials;
mod shell;
mod summary;
mod texts;
mod tool;
mod unused;
mod users;
mod who;
mod who_words;

pub use access::{any_fails, is_allowed};
pub use answer::{print_answers, print_omissions, print_review};
pub use asked::Asked;
pub use at_hand::{
    each_once, hosts_named, names_named, principals_at_hand, principals_named, topics_named,
};
pub use changes::print_changes;
pub use commands::{Step, steps, steps_keep_answers};
pub use encoding::plain_text;
pub use holdings::is_repeated;
pub use item::LeftOut;
pub use judge::{Judge, deciding};
pub use laws::idempotence_is_kafkas;
pub use log_answer::{
    any_otherwise, deciders, is_otherwise, otherwise_count, print_log, skipped_lines, verdict_on,
};
pub use log_line::Recorded;
pub use log_reading::{Entry, Log, read_log};
pub use moved::print_moved;
pub use origin::{Omission, Origin};
pub use policy::Policy;
pub use printed::{left_out_word, origin_by};
pub use question::{
    Access, Act, Asker, Query, Question, Questions, Right, read_questions, read_topics,
};
pub use reaches::asks_as_others;
pub use reading::read_file;
pub use rights::{on as asked_on, rights_of};
pub use summary::unused_count;
pub use who::{is_seen, is_told, target_at};
