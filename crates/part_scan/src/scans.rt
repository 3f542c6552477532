//! The client's scans that aren't at their end.
ghost use Rattle.std.specs.Prelude.{◌≡◌, ◌<◌, ◌+◌, ◌-◌, ◌^◌, ℕ, is_some, IfOk, OnOk, OnErr};
ghost use Rattle.std.specs.Option.{option_copied};
ghost use Rattle.request_rules.specs.ByNumber.{item_under};
ghost use Rattle.request_rules.specs.Requests.{no_scans};
ghost use Rattle.request_rules.specs.Scans.{begun_again, changing_scan, going_on, scan_step, took_page, with_new_scan, without_scan};
ghost use Rattle.part_scan.specs.Steps.{kind_of};
ghost use Rattle.part_scan.specs.declared.scan.PageStep.TheVariants.{More};

use crate::scan::{PageStep, Scan};
use cluster_types::{NoMemory, NodeId, PartitionId};
use open_table::OpenTable;
use std::alloc::Global;
use std::marker::Model;
use wire_messages::ScanPage;

/// The client's scans that are open, by their numbers.
#[derive(Drop)]
pub struct Scans {
    scans: OpenTable<Scan>,
}

impl Model for Scans {
    ghost use Rattle.request_rules.specs.Requests as requests;

    ghost Value = { requests.Scans };

    ghost view = { λ s. record { given = s.scans.given; running = s.scans.items } };
}

impl Scans {
    /// None is open, and no number was given.
    pub fn new(alloc: Global) -> Scans
        ensures { result ≡ no_scans }
    {
        Scans {
            scans: OpenTable::new(alloc),
        }
    }

    /// The number that the next scan gets, where fewer than 2^32 - 1 were given.
    pub fn next(&self) -> u32
        requires { self.now.given < 2 ^ 32 - 1 }
        ensures { result ≡ self.now.given + 1 }
    {
        self.scans.given() + 1
    }

    /// A scan of the partition begins, where fewer than 2^32 - 1 numbers were given. The answer is its
    /// number, from 1 on. Where memory is refused, nothing has changed.
    pub fn begin(&mut self, alloc: Global, partition: PartitionId) -> Result<u32, NoMemory>
        requires { self.old.given < 2 ^ 32 - 1 }
        ensures number { IfOk result (λ s. s ≡ self.old.given + 1) }
        ensures scans { OnOk result (self.new ≡ with_new_scan self.old partition) }
        ensures err { OnErr result (self.new ≡ self.old) }
    {
        self.scans.reserve()?;
        Ok(self.scans.push(Scan::new(alloc, partition)))
    }

    /// The scan of that number, if it is open: its partition and its position are what the client asks
    /// for next.
    pub fn get(&self, number: u32) -> Option<&Scan>
        ensures { option_copied result ≡ item_under self.now.running number }
    {
        self.scans.get(number)
    }

    /// Whether the scan of that number is open. Then a node's refusal of a page counts, which changes
    /// no scan.
    pub fn is_open(&self, number: u32) -> bool
        ensures { result ≡ is_some (item_under self.now.running number) }
    {
        self.scans.get(number).is_some()
    }

    /// What a page from that node is. Nothing changes.
    pub fn step_of(&self, from: NodeId, page: &ScanPage) -> PageStep
        ensures { result ≡ kind_of (scan_step self.now from page.now) }
    {
        match self.scans.get(page.scan) {
            Some(scan) => scan.step_of(from, page),
            None => PageStep::Spent,
        }
    }

    /// A page came from that node. Its scan keeps the records of a page that others follow, begins
    /// anew, or, with its last page, is closed and let go. Only a page that others follow wants memory;
    /// where that is refused, nothing has changed.
    pub fn on_page(
        &mut self,
        alloc: Global,
        from: NodeId,
        page: ScanPage,
    ) -> Result<PageStep, NoMemory>
        ensures step { IfOk result (λ s. s ≡ kind_of (scan_step self.old from page)) }
        ensures scans { OnOk result (self.new ≡ took_page self.old from page) }
        ensures err { OnErr result (self.new ≡ self.old) }
        ensures memory { OnErr result (kind_of (scan_step self.old from page) ≡ More) }
    {
        let step = self.step_of(from, &page);
        match step {
            PageStep::Spent => Ok(step),
            PageStep::Again => {
                self.begin_again(alloc, page.scan);
                Ok(step)
            }
            PageStep::More => {
                self.go_on(alloc, from, page)?;
                Ok(step)
            }
            PageStep::Whole => {
                let _ = self.scans.take(page.scan);
                Ok(step)
            }
        }
    }

    /// The scan of that number, if it is open, is at its partition's start again.
    fn begin_again(&mut self, alloc: Global, number: u32)
        ensures { self.new ≡ changing_scan self.old number begun_again }
    {
        let Some(scan) = self.scans.get(number) else {
            return;
        };
        let partition = scan.partition();
        let _ = self.scans.replace(number, Scan::new(alloc, partition));
    }

    /// The page's scan, if it is open, has the page's records too.
    fn go_on(&mut self, alloc: Global, from: NodeId, page: ScanPage) -> Result<(), NoMemory>
        ensures ok { OnOk result (self.new ≡ changing_scan self.old page.scan (going_on from page)) }
        ensures err { OnErr result (self.new ≡ self.old) }
    {
        let number = page.scan;
        let Some(scan) = self.scans.get(number) else {
            return Ok(());
        };
        let partition = scan.partition();
        let Some(mut scan) = self.scans.replace(number, Scan::new(alloc, partition)) else {
            return Ok(());
        };
        let went_on = scan.go_on(from, page);
        let _ = self.scans.replace(number, scan);
        went_on
    }
}
