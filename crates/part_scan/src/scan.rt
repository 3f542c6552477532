//! A scan that isn't at its end.
ghost use Rattle.std.specs.Prelude.{◌≡◌, [], Some, None, OnOk, OnErr};
ghost use Rattle.request_rules.specs.declared.scanning.Scanning.{Scanning};
ghost use Rattle.request_rules.specs.Scans.{are_of_one_content, first_with, going_on, page_front, position, same_position, stands_with, step_for};
ghost use Rattle.part_scan.specs.Paged.{in_one};
ghost use Rattle.part_scan.specs.Steps.{kind_of};

use crate::paged::PagedRecords;
use cluster_types::{Digest, NoMemory, NodeId, PartitionId};
use item_lists::OwnedList;
use request_rules::FirstPage;
use std::alloc::Global;
use std::marker::Model;
use wire_messages::{Records, ScanPage};

/// What a page is to its scan: the first of these that holds.
#[derive(Clone, Copy, Debug, PartialEq, Eq)]
pub enum PageStep {
    /// The scan isn't open, or the page doesn't begin where the scan has come to.
    Spent,
    /// The page is of another node, view or number of writes than the scan's first page: the scan
    /// begins anew.
    Again,
    /// Pages follow.
    More,
    /// It is the last page: its records and those that the scan had are all of the partition.
    Whole,
}

/// A scan of a partition, and what it has of it.
#[derive(Drop)]
pub struct Scan {
    partition: PartitionId,
    /// The first of the pages from which the records are, if one came.
    first: Option<FirstPage>,
    records: PagedRecords,
}

impl Model for Scan {
    ghost use Rattle.request_rules.specs.declared.scanning.Scanning.{Scanning};

    ghost Value = { Scanning };

    ghost view = { λ s.
        record {
          partition = s.partition;
          first = s.first;
          records = s.records;
        } };
}

impl Scan {
    /// A scan of the partition from its start.
    pub(crate) fn new(alloc: Global, partition: PartitionId) -> Scan
        ensures { result ≡ record { partition = partition; first = None; records = [] } }
    {
        Scan {
            partition,
            first: None,
            records: PagedRecords::new(alloc),
        }
    }

    /// The partition that it reads.
    pub fn partition(&self) -> PartitionId
        ensures { result ≡ self.now.partition }
    {
        self.partition
    }

    /// How far it has come: it has all records up to this digest, or it is at the partition's start.
    pub fn position(&self) -> Option<Digest>
        ensures { result ≡ position self.now }
    {
        self.records.last_digest()
    }

    /// The records that it has, in pages, in rising order of their digests.
    pub fn pages(&self) -> &OwnedList<Records>
        ensures { in_one result.now ≡ self.now.records }
    {
        self.records.pages()
    }

    /// What a page of this scan from that node is.
    pub(crate) fn step_of(&self, from: NodeId, page: &ScanPage) -> PageStep
        ensures { result ≡ kind_of (step_for (Some self.now) from page.now) }
    {
        if !is_same_position(&page.after, &self.position()) {
            return PageStep::Spent;
        }
        if !stands_with(&front_of(from, page), &self.first) {
            return PageStep::Again;
        }
        if page.more {
            PageStep::More
        } else {
            PageStep::Whole
        }
    }

    /// The page's records are added. Where memory is refused, the scan is as it was.
    pub(crate) fn go_on(&mut self, from: NodeId, page: ScanPage) -> Result<(), NoMemory>
        ensures ok { OnOk result (self.new ≡ going_on from page self.old) }
        ensures err { OnErr result (self.new ≡ self.old) }
    {
        let first = first_with(front_of(from, &page), self.first);
        self.records.push(page.records)?;
        self.first = Some(first);
        Ok(())
    }
}

/// What the page from that node tells of itself.
fn front_of(from: NodeId, page: &ScanPage) -> FirstPage
    ensures { result ≡ page_front from page.now }
{
    FirstPage {
        from,
        key: page.key,
        writes: page.writes,
    }
}

/// Whether both are the start, or one digest.
fn is_same_position(a: &Option<Digest>, b: &Option<Digest>) -> bool
    ensures { result ≡ same_position a.now b.now }
{
    match (a, b) {
        (None, None) => true,
        (Some(a), Some(b)) => a == b,
        _ => false,
    }
}

/// Whether the page can stand with the scan's first one, if there is one.
fn stands_with(page: &FirstPage, first: &Option<FirstPage>) -> bool
    ensures { result ≡ stands_with page.now first.now }
{
    match first {
        None => true,
        Some(first) => are_of_one_content(first, page),
    }
}

/// Whether two pages are of one node, in one view, with as many writes.
fn are_of_one_content(a: &FirstPage, b: &FirstPage) -> bool
    ensures { result ≡ are_of_one_content a.now b.now }
{
    a.from == b.from && a.key == b.key && a.writes == b.writes
}

/// The first page of a scan that has none yet.
fn first_with(page: FirstPage, first: Option<FirstPage>) -> FirstPage
    ensures { result ≡ first_with page first }
{
    match first {
        None => page,
        Some(first) => first,
    }
}
