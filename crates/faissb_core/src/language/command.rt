use super::id_words::IdWords;
use super::ids::Ids;

/// A command that changes the index. The words that follow its name are kept as one text.
#[derive(Clone, Copy, Debug)]
pub enum IndexChange<'l> {
    /// Codes to add.
    Add(&'l [u8]),
    /// Codes to add, each under an id.
    AddIds(IdWords<'l>),
    /// Centroids for the lists.
    Centroids(&'l [u8]),
    /// How many lists a query looks into.
    Nprobe(u64),
    /// In how many bits a key may differ from the query's.
    Nflip(u64),
    /// After how many rows a query looks into no further list.
    MaxCodes(u64),
    /// Whether a direct map is kept.
    DirectMap(bool),
    /// Rows to remove.
    Remove(Selection<'l>),
}

/// Which rows are removed, by their labels or outer ids.
#[derive(Clone, Copy, Debug)]
pub enum Selection<'l> {
    /// Those with an id of a list.
    Listed(Ids<'l>),
    /// All but those with an id of a list.
    AllBut(Ids<'l>),
    /// Those from an id on and below another.
    Between(i64, i64),
}

/// A command that asks the index something.
#[derive(Clone, Copy, Debug)]
pub enum IndexQuestion<'l> {
    /// So many hits nearest to a code.
    Search(u64, &'l [u8]),
    /// All hits nearer to a code than a radius.
    Range(u64, &'l [u8]),
    /// So many hits of all codes of a MultiHash, with as many flips as that takes.
    Nearest(u64, &'l [u8]),
    /// The code with a label.
    Reconstruct(u64),
    /// What the index is and how it is set.
    Show,
}

/// A command that asks the shards something, all of them as one index.
#[derive(Clone, Copy, Debug)]
pub enum ShardQuestion<'l> {
    /// So many hits nearest to a code.
    Search(u64, &'l [u8]),
    /// All hits nearer to a code than a radius.
    Range(u64, &'l [u8]),
}

/// A command of a script.
#[derive(Clone, Copy, Debug)]
pub enum Command<'l> {
    /// An index of so many bits, as a factory text says.
    New(u64, &'l [u8]),
    /// The index of a file of this name.
    Load(&'l str),
    /// The index is written to a file of this name.
    Save(&'l str),
    /// The index becomes the last shard.
    Shard,
    /// All shards are dropped.
    Unshard,
    Change(IndexChange<'l>),
    Ask(IndexQuestion<'l>),
    AskShards(ShardQuestion<'l>),
}
