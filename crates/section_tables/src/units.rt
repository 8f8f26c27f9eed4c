//! Units and their entries.

ghost use Rattle.std.specs.Prelude.{◌≡◌, Ok, Err, []};
ghost use Rattle.unit.specs.Offsets.{unplaced};
ghost use Rattle.claim.specs.Section.{entry_offset};
ghost use Rattle.section_tables.specs.View.{units_of, last_of, Begins, Places};

use crate::tables::Units;
use common::encoding::Encoding;
use common::error::Error;
use unit::UnitOffsets;

impl Units {
    /// No units.
    pub fn new() -> Units
        ensures { units_of result ≡ [] }
    {
        Units {
            rows: [UnitOffsets::new(Encoding::default(), 0); 8],
            count: 0,
        }
    }

    /// The units that have begun.
    pub fn begun(&self) -> &[UnitOffsets]
        ensures { result.now ≡ units_of self.now }
    {
        &self.rows[..self.count]
    }

    /// The last unit that has begun.
    pub fn last(&self) -> Result<&UnitOffsets, Error>
        ensures { elim result [ Ok unit ↦ last_of (units_of self.now) ≡ Ok unit.now | Err refusal ↦ last_of (units_of self.now) ≡ Err refusal ] }
    {
        self.begun().last().ok_or(Error::NoUnit)
    }

    /// Begins a unit at an offset, and answers its number.
    pub fn begin(&mut self, encoding: Encoding, start: usize) -> Result<usize, Error>
        ensures { Begins (units_of self.old) (unplaced encoding start) result (units_of self.new) }
    {
        let number = self.count;
        let unit = UnitOffsets::new(encoding, start);
        self.count = list::push(&mut self.rows, number, unit).ok_or(Error::TooManyUnits)?;
        Ok(number)
    }

    /// Places an entry of the last unit at an offset.
    pub fn place(&mut self, entry: usize, offset: usize) -> Result<(), Error>
        ensures { Places (units_of self.old) entry offset result (units_of self.new) }
    {
        let last = self.last()?;
        if entry >= last.entries.len() {
            return Err(Error::BadEntry);
        }
        if last.entries[entry].is_some() {
            return Err(Error::AlreadyPlaced);
        }
        if offset <= last.start {
            return Err(Error::AtUnitStart);
        }
        self.rows[self.count - 1].entries[entry] = Some(offset);
        Ok(())
    }

    /// The section offset of an entry, or nothing where it is not placed.
    pub fn entry_offset(&self, unit: usize, entry: usize) -> Option<usize>
        ensures { result ≡ entry_offset (units_of self.now) unit entry }
    {
        *self.begun().get(unit)?.entries.get(entry)?
    }
}
