//! Lists of records.
use cluster_types::Digest;
use conflict_order::Version;
use item_lists::OwnedList;

/// Records in the order in which they were pushed, each a digest and a version. The first ones can
/// be taken out again.
pub type Records = OwnedList<(Digest, Version)>;
