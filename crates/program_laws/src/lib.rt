//! Laws over the program, on which no program stands: what the journal of a day file tells, and what the text of `reroute` tells.
//!
//! A journal is read by its format alone, which bounds the numbers that it holds. These laws say that every history of a day
//! file is within those bounds. So its journal is read back as that history, and as no other. The same is said of what `run`
//! promises, the headline; so `certify` calls whole what a completed day wrote. Each permit that a day recalls has just one line in the text of `reroute`, in the order of the recalls.
#![tactic(auto)]

mod laws;
mod recalls;

pub use laws::{
    day_histories_fit, day_journals_are_whole, day_journals_have_one_history,
    day_journals_read_back, headlines_fit, headlines_read_back, texts_have_one_history,
};
pub use recalls::each_recall_has_its_line;
