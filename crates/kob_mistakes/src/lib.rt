//! What is reported of a fault in a scene or a script: the word that is wrong, what was
//! expected there, and the nearest word that exists.
#![tactic(auto)]

mod forms;
mod hint;
mod kinds;
mod left_out;
mod listed;
mod mistake;
mod misused;
mod names;
mod option;
mod place;
mod question;
mod question_form;
mod question_place;
mod quoted;
mod quotes;
mod record;
mod rows;
mod rule;
mod spelling;
mod told;
mod words;
mod worker;

pub use hint::hint_on;
pub use kinds::{Kind, Meant, begins_question, meant_by};
pub use mistake::{Mistake, mistake_in};
pub use misused::push_misused;
pub use place::word_place;
pub use question::{Lines, line_mistake};
pub use quoted::quoted_name;
pub use record::doubtful_state;
pub use spelling::nearest;
pub use told::{push_doubtful, push_misspelt, push_quoted, push_unquoted};
pub use words::{lines_of, word_at};
