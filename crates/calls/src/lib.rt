// The public face: a session, its eight calls and what they return, in the words of 01. Each call refuses by its checks in their order, and its promise
// is one equation.
// Auction: refusals 1, 2, 4, 12.
#![tactic(auto)]

pub use answers::{Auctioned, auction};
// The four numbers of an auction and of the theoretical answer.
pub use courses::AuctionAnswer;
// Start: refusals 1, 3. Order: 1, 2, 4, 5, 6, 7, 8, 9, 10. Delete: 1, 2, 11.
pub use entries::{Deleted, Entered, Started, delete, order, start};
// Theoretical answer: refusals 1, 2, 4.
pub use foresight::{Foreseen, theoretical};
// Quote: refusals 1, 13, 2, 4, 5, 6, 7, 8, 9, 10.
pub use quotation::{Quoted, quote};
// A session, and the fresh one.
pub use session::Session;
// Ranked queue: refusals 1, 2, 12. Filled front: 1.
pub use standings::{Queued, filled_front, ranked};
