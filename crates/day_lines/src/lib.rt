// The lines of a day file that make a call: each function reads the words of one, makes the call, and writes its answer and the
// records under it. A line that cannot be written does not stop the next ones. The comments quote docs/DAYFILE.md.
#![tactic(auto)]

mod calls;
mod failure;

pub use calls::{ROOM, close, notice, open, run, show, trade};
pub use failure::Failure;
