//! Distributions pooled: the outcomes of a parts measure, each as its share of what the facts of an answer say.
#![tactic(auto)]

mod laws;
mod pooling;

pub use exact_fraction::Quotient;
pub use laws::worked_pools;
pub use pooling::{PoolFault, Pooled, pool};
