// Texts and numbers in decimal, put on a page one behind the other.
//
// Contracts cite specs/: Decimal and Inner. Pinned has sentences that a number in decimal meets.
#![tactic(auto)]

pub mod page;
