//! Scans of partitions, as the client reads them.
use cluster_types::{ClusterKey, NodeId, PartitionId};
use wire_messages::Records;

/// What all pages of a scan have in common, as its first page told it.
#[derive(Clone, Copy, Debug, PartialEq, Eq)]
pub struct FirstPage {
    /// The node that sent the page.
    pub from: NodeId,
    pub key: ClusterKey,
    /// How many writes the partition had in that view.
    pub writes: u32,
}

/// Records of a partition that a node shows, in rising order of their digests.
#[derive(Debug, Drop)]
pub struct Page {
    pub records: Records,
    /// Whether the node holds records of the partition above these.
    pub more: bool,
}

/// A scan that isn't at its end.
#[derive(Debug, Drop)]
pub struct Scanning {
    pub partition: PartitionId,
    /// The first of the pages from which the records are, if one came.
    pub first: Option<FirstPage>,
    /// The records that came, in rising order of their digests.
    pub records: Records,
}

/// What a page is to a scan: the first of these that holds.
#[derive(Debug, Drop)]
pub enum ScanStep {
    /// The scan isn't open, or the page doesn't begin where the scan has come to.
    Spent,
    /// The page is of another node, view or number of writes than the scan's first page: the scan
    /// begins anew.
    Again,
    /// Pages follow. It has the page's number of records.
    More(u32),
    /// It is the last page. It has all records of the scan.
    Whole(Records),
}
