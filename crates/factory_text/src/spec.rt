use crate::{Kind, Prefix};

/// What a factory text stands for.
#[derive(Clone, Copy, Debug, PartialEq, Eq)]
pub struct Spec {
    pub prefix: Prefix,
    pub kind: Kind,
}
