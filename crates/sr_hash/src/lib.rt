//! The ten hashes of a key: which server of a pool, which buckets and digests of the connection table, which places of the transit
//! filter, which rows of the full-key table, which pipe. All are FNV-1a with 64 bits over the hash's number and the key, folded.
#![tactic(auto)]

mod clash;
mod fnv;
mod keyed;
mod uses;

pub use clash::{clashes, matches};
pub use fnv::{fnv1a, fold};
pub use keyed::hash;
pub use uses::{bloom_places, bucket, digest, group, pipe_of, select};
