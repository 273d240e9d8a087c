/// Blocks whose numbers follow one another.
#[derive(Clone, Copy, Debug)]
pub struct Beside {
    pub first: usize,
    pub count: usize,
}
