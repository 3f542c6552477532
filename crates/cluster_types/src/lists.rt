//! Lists of bytes, digests and numbers.
use crate::digest::Digest;
use item_lists::CopyList;

/// Bytes in the order in which they were pushed. The first ones can be taken out again.
pub type Bytes = CopyList<u8>;

/// Digests in the order in which they were pushed. The first ones can be taken out again.
pub type DigestList = CopyList<Digest>;

/// Numbers in the order in which they were pushed. The first ones can be taken out again.
pub type IdList = CopyList<u64>;
