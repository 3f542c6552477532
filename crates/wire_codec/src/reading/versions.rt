//! Digests, values, versions and records are read.
ghost use Rattle.std.specs.Prelude.{◌≡◌, None};
ghost use Rattle.wire_messages.specs.Fields.{items_at};
ghost use Rattle.wire_codec.specs.Reading.{Reads, ReadsUnlessRefused};
ghost use Rattle.wire_messages.specs.Versions.{digest_at, digest_above_at, option_digest_at, value_at, body_at, version_at, option_version_at, record_at, with_record, records_at};

use crate::reading::{ReadFault, Reader, bad};
use cluster_types::Digest;
use conflict_order::{Body, ValueBytes, Version};
use std::alloc::Global;
use wire_messages::{FieldFault, Records};

impl<'a> Reader<'a> {
    /// A digest.
    #[tactic(auto, unfolding(wire_messages::specs::Fields::field, wire_messages::specs::Versions::bytes_at, wire_messages::specs::Versions::digest_at))]
    pub(crate) fn digest(&mut self) -> Result<Digest, FieldFault>
        ensures { Reads result (digest_at self.old.rest.now) self.new.rest.now }
    {
        let mut digest = [0; 20];
        digest.copy_from_slice(self.take(20)?);
        Ok(Digest::new(digest))
    }

    /// A digest above the one before it, if there is one.
    #[tactic(auto, unfolding(wire_messages::specs::Fields::field, wire_messages::specs::Versions::bytes_at, wire_messages::specs::Versions::digest_at, wire_messages::specs::Versions::digest_above_at))]
    pub(crate) fn digest_above(&mut self, before: Option<Digest>) -> Result<Digest, FieldFault>
        ensures { Reads result (digest_above_at before self.old.rest.now) self.new.rest.now }
    {
        let bytes = self.rest;
        let digest = self.digest()?;
        if let Some(before) = before {
            if !before.cmp(&digest).is_lt() {
                return Err(bad(bytes));
            }
        }
        Ok(digest)
    }

    /// 0, or 1 and a digest.
    #[tactic(auto, unfolding(wire_messages::specs::Versions::option_digest_at))]
    pub(crate) fn option_digest(&mut self) -> Result<Option<Digest>, FieldFault>
        ensures { Reads result (option_digest_at self.old.rest.now) self.new.rest.now }
    {
        let tag = self.byte(0, 1)?;
        if tag == 0 {
            return Ok(None);
        }
        Ok(Some(self.digest()?))
    }

    /// A value behind the number of its bytes.
    #[tactic(auto, unfolding(wire_messages::specs::Fields::field, wire_messages::specs::Versions::bytes_at, wire_messages::specs::Versions::value_at))]
    pub(crate) fn value(&mut self, alloc: Global) -> Result<ValueBytes, ReadFault>
        ensures { ReadsUnlessRefused result (value_at self.old.rest.now) self.new.rest.now }
    {
        let count = usize::from(self.byte(0, 128)?);
        let bytes = self.take(count)?;
        ValueBytes::from_slice(alloc, bytes).map_err(|_| ReadFault::NoMemory)
    }

    /// 0 for a tombstone, or 1 and a value.
    #[tactic(auto, unfolding(wire_messages::specs::Versions::body_at))]
    pub(crate) fn body(&mut self, alloc: Global) -> Result<Body, ReadFault>
        ensures { ReadsUnlessRefused result (body_at self.old.rest.now) self.new.rest.now }
    {
        let tag = self.byte(0, 1)?;
        if tag == 0 {
            return Ok(Body::Tombstone);
        }
        Ok(Body::Value(self.value(alloc)?))
    }

    /// A version.
    #[tactic(auto, unfolding(wire_messages::specs::Versions::version_at))]
    pub(crate) fn version(&mut self, alloc: Global) -> Result<Version, ReadFault>
        ensures { ReadsUnlessRefused result (version_at self.old.rest.now) self.new.rest.now }
    {
        let lut = self.u64()?;
        let generation = self.positive()?;
        let body = self.body(alloc)?;
        Ok(Version {
            lut,
            generation,
            body,
        })
    }

    /// 0, or 1 and a version.
    #[tactic(auto, unfolding(wire_messages::specs::Versions::option_version_at))]
    pub(crate) fn option_version(&mut self, alloc: Global) -> Result<Option<Version>, ReadFault>
        ensures { ReadsUnlessRefused result (option_version_at self.old.rest.now) self.new.rest.now }
    {
        let tag = self.byte(0, 1)?;
        if tag == 0 {
            return Ok(None);
        }
        Ok(Some(self.version(alloc)?))
    }

    /// A record whose digest is above the one before it, if there is one.
    #[tactic(auto, unfolding(wire_messages::specs::Versions::record_at))]
    fn record(
        &mut self,
        alloc: Global,
        before: Option<Digest>,
    ) -> Result<(Digest, Version), ReadFault>
        ensures { ReadsUnlessRefused result (record_at before 0 self.old.rest.now) self.new.rest.now }
    {
        let digest = self.digest_above(before)?;
        let version = self.version(alloc)?;
        Ok((digest, version))
    }

    /// So many records.
    fn counted_records(&mut self, alloc: Global, count: u8) -> Result<Records, ReadFault>
        ensures { ReadsUnlessRefused result (items_at record_at with_record count None self.old.rest.now)
            self.new.rest.now }
    {
        let mut records = Records::new(alloc);
        let mut before = None;
        for _ in 0..count {
            let (digest, version) = self.record(alloc, before)?;
            records.push((digest, version))?;
            before = Some(digest);
        }
        Ok(records)
    }

    /// `least` to 64 records behind their number.
    #[tactic(auto, unfolding(wire_messages::specs::Versions::records_at))]
    pub(crate) fn records(&mut self, alloc: Global, least: u8) -> Result<Records, ReadFault>
        ensures { ReadsUnlessRefused result (records_at least self.old.rest.now) self.new.rest.now }
    {
        let count = self.byte(least, 64)?;
        self.counted_records(alloc, count)
    }
}
