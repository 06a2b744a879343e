// The text that each answer is. No table is touched here: the program lends them to the card, and puts together what is shown of them.
#![tactic(auto, using(text::proofs::Putting::put_then), unfolding(text::specs::Out::put_all))]

mod buffers;
mod fields;
mod header;
mod plain;
mod print;
mod reply;
mod shown;

pub use plain::{put_end, put_text, put_unread};
pub use reply::put_reply;
pub use shown::{put_member, put_slot, put_standing};
