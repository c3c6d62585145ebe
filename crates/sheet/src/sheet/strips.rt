ghost use Rattle.std.specs.Prelude.{◌≡◌, ℕ, ◌≤◌, ◌++◌, map, length, drop, None, OnOk};
ghost use Rattle.arena.specs.Sets.{upto};
ghost use Rattle.sheet.specs.Fits.{Fits};
ghost use Rattle.sheet.specs.Outcomes.{load_outcome, write_outcome};
ghost use Rattle.sheet.specs.Sheets.{ReadsBack, WritesBack, all_in, load_after, load_answer, strip_of, write_answer, write_bytes};
ghost use Rattle.strip.specs.Strip.{fault, goals, row_read, size};
ghost use Rattle.strip.specs.Writing.{strip_bytes};

use crate::loading::fill_read;
use crate::sheet::Sheet;
use crate::writing::put_strip;
use arena::number_at;
use sheet_faults::{LoadFault, WriteFault};
use strip::{inspect, strip_bytes};

impl Sheet {
    /// Makes the sheet what a strip without a fault stores, no row out.
    fn replace(&mut self, strip: &[u8])
        requires { fault strip.now ≡ None }
        ensures sheet { self.new ≡ all_in (size strip.now) (goals strip.now) (map (row_read strip.now) (upto (size strip.now))) }
        ensures back { WritesBack self.new strip.now }
        ensures fits { Fits self.new }
    {
        fill_read(&mut self.slots, strip, number_at(strip, 2));
        self.goals = number_at(strip, 4);
    }

    /// Replaces the sheet by the rows of a strip. Refused while a row is out, and then where the strip is faulty; a row
    /// without moves is no fault. An accepted strip is the one that its rows would be written as.
    pub fn load(&mut self, strip: &[u8]) -> Result<(), LoadFault>
        ensures answer { load_outcome result ≡ load_answer self.old strip.now }
        ensures sheet { self.new ≡ load_after self.old strip.now }
        ensures back { OnOk result (WritesBack self.new strip.now) }
        ensures fits { Fits self.old × Fits self.new }
    {
        if let Some(p) = self.lowest_out() {
            return Err(LoadFault::RowOut(p));
        }
        inspect(strip)?;
        self.replace(strip);
        Ok(())
    }

    /// Writes the strip of the rows over the first bytes, which are enough.
    fn write_strip(&self, bytes: &mut [u8])
        requires { strip_bytes self.now.size ≤ length bytes.old }
        ensures strip { bytes.new ≡ strip_of self.now ++ drop (strip_bytes self.now.size) bytes.old }
        ensures back { ReadsBack self.now bytes.new }
    {
        put_strip(self.slots.as_slice(), self.goals, bytes);
    }

    /// Writes the strip of the rows over the first of the bytes and leaves those after it. Refused where the bytes are
    /// too few. What is written is read back.
    pub fn write(&self, bytes: &mut [u8]) -> Result<(), WriteFault>
        ensures answer { write_outcome result ≡ write_answer self.now bytes.old }
        ensures bytes { bytes.new ≡ write_bytes self.now bytes.old }
        ensures back { OnOk result (ReadsBack self.now bytes.new) }
        ensures fits { Fits self.now }
    {
        if bytes.len() < strip_bytes(self.size()) {
            return Err(WriteFault::Short);
        }
        self.write_strip(bytes);
        Ok(())
    }
}
