/// Rows whose places among the rows of all blocks follow one another.
#[derive(Clone, Copy, Debug)]
pub struct Stretch {
    pub from: usize,
    pub rows: usize,
}
