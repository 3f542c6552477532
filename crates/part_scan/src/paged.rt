//! The records of a scan, in the pages in which they came.
ghost use Rattle.std.specs.Prelude.{◌≡◌, ◌++◌, [], List, OnOk, OnErr};
ghost use Rattle.conflict_order.specs.Contents.{Record};
ghost use Rattle.request_rules.specs.Scans.{last_digest};
ghost use Rattle.part_scan.specs.Paged.{in_one};

use cluster_types::{Digest, NoMemory};
use item_lists::OwnedList;
use std::alloc::Global;
use std::marker::Model;
use wire_messages::Records;

/// Records in the order in which they came, as pages of them.
#[derive(Drop)]
pub struct PagedRecords {
    pages: OwnedList<Records>,
    /// The digest of the last record.
    last: Option<Digest>,
}

impl Model for PagedRecords {
    ghost use Rattle.std.specs.Prelude.{◌≡◌, List};
    ghost use Rattle.conflict_order.specs.Contents.{Record};
    ghost use Rattle.request_rules.specs.Scans.{last_digest};
    ghost use Rattle.part_scan.specs.Paged.{in_one};

    ghost Value = { List Record };

    ghost view = { λ r. in_one r.pages };

    ghost invariant = { λ r. r.last ≡ last_digest (in_one r.pages) };
}

impl PagedRecords {
    /// No records, without memory.
    pub fn new(alloc: Global) -> PagedRecords
        ensures { result ≡ [] }
    {
        PagedRecords {
            pages: OwnedList::new(alloc),
            last: None,
        }
    }

    /// Adds the records of a page at the end. Where memory is refused, the records are as they were.
    pub fn push(&mut self, page: Records) -> Result<(), NoMemory>
        ensures ok { OnOk result (self.new ≡ self.old ++ page) }
        ensures err { OnErr result (self.new ≡ self.old) }
    {
        let last = last_of(&page, self.last);
        self.pages.push(page)?;
        self.last = last;
        Ok(())
    }

    /// The pages. Their records one after another are all records.
    pub fn pages(&self) -> &OwnedList<Records>
        ensures { in_one result.now ≡ self.now }
    {
        &self.pages
    }

    /// The digest of the last record, if there are any.
    pub fn last_digest(&self) -> Option<Digest>
        ensures { result ≡ last_digest self.now }
    {
        self.last
    }
}

/// The digest of the page's last record, and where it has none, the one before.
fn last_of(page: &Records, before: Option<Digest>) -> Option<Digest>
    ensures { (rs : List Record) → before ≡ last_digest rs
        → result ≡ last_digest (rs ++ page.now) }
{
    if page.is_empty() {
        return before;
    }
    match page.get(page.len() - 1) {
        Some(record) => Some(record.0),
        None => before,
    }
}
