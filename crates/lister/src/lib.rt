// The listing of kinds: what each register holds at each word, by its kind alone, for dealers who have
// no rows yet. It is the smallest table of marks that is closed under the rules. (Document 02, request
// 2.)
#![tactic(auto)]

// Raising until closed.
mod raising;
// The listing.
mod listing;

pub use listing::list_kinds;
