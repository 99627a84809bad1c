// The calls on a book: opening, trade, notice, run, close. Each answers for all arguments, and a refused one changes nothing.
#![tactic(auto)]

pub use close::close;
pub use notice::notice;
pub use opening::open;
pub use run::run;
pub use trade::trade;
