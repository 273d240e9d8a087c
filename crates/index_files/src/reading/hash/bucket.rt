/// The key of a bucket and the number of its rows.
#[derive(Clone, Copy, Debug)]
pub struct Bucket {
    pub key: u64,
    pub size: u64,
}
