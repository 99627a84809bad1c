// What the words of a day file stand for: a basket is a letter, an issue its number or its code, an entry an issue and its lots.
// Each is read from a word, and baskets and codes are written as they are read. The comments quote docs/DAYFILE.md.
#![tactic(auto)]

mod basket;
mod codes;
mod entry;

pub use basket::{Basket, next_basket, next_basket_of_day, read_basket};
pub use codes::{CODES, Codes, codes_of};
pub use entry::{entries, fill_entries, read_entry};
