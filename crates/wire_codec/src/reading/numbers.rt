//! Numbers, bytes and flags are read.
ghost use Rattle.std.specs.Prelude.{◌≡◌, ◌≤◌, IfOk};
ghost use Rattle.std.specs.Int.{w16, w32, w64};
ghost use Rattle.wire_messages.specs.Numbers.{every, positive, between, number_at, byte_at, flag_at};
ghost use Rattle.wire_codec.specs.Reading.{Reads};

use crate::reading::{Reader, bad, short};
use wire_messages::FieldFault;

impl<'a> Reader<'a> {
    /// A number of 16 bits.
    #[tactic(auto, unfolding(wire_messages::specs::Fields::field, wire_messages::specs::Numbers::number_at))]
    pub(crate) fn u16(&mut self) -> Result<u16, FieldFault>
        ensures { Reads result (number_at w16 every self.old.rest.now) self.new.rest.now }
    {
        let front = self.take(2)?;
        Ok(u16::from_be_bytes([front[0], front[1]]))
    }

    /// A number of 32 bits.
    #[tactic(auto, unfolding(wire_messages::specs::Fields::field, wire_messages::specs::Numbers::number_at))]
    pub(crate) fn u32(&mut self) -> Result<u32, FieldFault>
        ensures { Reads result (number_at w32 every self.old.rest.now) self.new.rest.now }
    {
        let front = self.take(4)?;
        let number = u32::from_be_bytes([front[0], front[1], front[2], front[3]]);
        Ok(number)
    }

    /// A number of 32 bits that isn't 0.
    #[tactic(auto, unfolding(wire_messages::specs::Fields::field, wire_messages::specs::Numbers::number_at))]
    pub(crate) fn positive(&mut self) -> Result<u32, FieldFault>
        ensures { Reads result (number_at w32 positive self.old.rest.now) self.new.rest.now }
    {
        let bytes = self.rest;
        let number = self.u32()?;
        if number == 0 {
            return Err(bad(bytes));
        }
        Ok(number)
    }

    /// A number of 64 bits.
    #[tactic(auto, unfolding(wire_messages::specs::Fields::field, wire_messages::specs::Numbers::number_at))]
    pub(crate) fn u64(&mut self) -> Result<u64, FieldFault>
        ensures { Reads result (number_at w64 every self.old.rest.now) self.new.rest.now }
    {
        let front = self.take(8)?;
        let number = u64::from_be_bytes([
            front[0], front[1], front[2], front[3], front[4], front[5], front[6], front[7],
        ]);
        Ok(number)
    }

    /// A byte from `least` to `most`.
    #[tactic(auto, unfolding(wire_messages::specs::Fields::field, wire_messages::specs::Numbers::byte_at))]
    pub(crate) fn byte(&mut self, least: u8, most: u8) -> Result<u8, FieldFault>
        ensures reads { Reads result (byte_at (between least most) self.old.rest.now)
            self.new.rest.now }
        ensures range { IfOk result (λ b. (least ≤ b) × (b ≤ most)) }
    {
        match self.rest {
            [] => Err(short()),
            [byte, rest @ ..] => {
                if *byte < least || *byte > most {
                    return Err(bad(self.rest));
                }
                self.rest = rest;
                Ok(*byte)
            }
        }
    }

    /// A byte that is 0 or 1.
    #[tactic(auto, unfolding(wire_messages::specs::Numbers::flag_at))]
    pub(crate) fn flag(&mut self) -> Result<bool, FieldFault>
        ensures { Reads result (flag_at self.old.rest.now) self.new.rest.now }
    {
        let byte = self.byte(0, 1)?;
        Ok(byte == 1)
    }
}
