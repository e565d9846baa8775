//! The tokens of blocks and of pages: their texts, their readers, and when one is good.
#![tactic(auto)]

mod block;
mod frame;
mod laws;
mod page;
mod seal;
mod stated;

pub use block::{BlockField, block_token, is_block_token, read_block_token};
pub use laws::{block_tokens, kinds_apart, page_tokens};
pub use page::{PageField, page_start, page_token, read_page_token};
