//! The index that keeps codes on the lists of their nearest centroids, Faiss's `IndexBinaryIVF`.
#![tactic(auto)]

mod centroid_error;
mod direct_map;
mod entry;
mod ivf;
mod keep;
mod label_places;
mod list_flags;
mod near;
mod nearest;
mod order_flags;
mod put;

pub use centroid_error::CentroidError;
pub use ivf::Ivf;
