// Strays: words that nothing reaches, which the check examines too. Such a word gets a row that it can
// stand and that, if possible, asks nothing new of the words after it: that of an edge into it that no
// values pass, or of the entry; and where the next word that has a row has something else, that.
#![tactic(auto)]

// How a word fares with a row.
mod faring;
// The row of a stray.
mod choosing;

pub use choosing::strand;
