// Replies and their texts.
mod factory_word;
mod outgoing;
mod refusal;
mod refused;
mod reply;
mod send;
mod shown;
mod text;

pub use factory_word::FactoryWord;
pub use refusal::Refusal;
pub use reply::Reply;
pub use send::send_piece;
pub use text::write_reply;
