// The session that the commands of a script work on: a file for each group of commands.
mod adding;
mod files;
mod halt;
mod new;
mod queries;
mod read_codes;
mod removing;
mod session;
mod settings;
mod shard_group;
mod stop;

pub use session::Session;
pub use stop::Stop;
