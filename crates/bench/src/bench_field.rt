// What a bench does.
ghost use Rattle.std.specs.Prelude.{◌≡◌, true, [], length, IfErr, if◌then◌else◌, Some, None, OnOk, nat_le};
ghost use Rattle.frame.specs.Openings.{opening};
ghost use Rattle.field.specs.Airs.{plain_hearing};
ghost use Rattle.field.specs.Declining.{declined_by};
ghost use Rattle.field.specs.Sends.{on_air, IfHeard};
ghost use Rattle.bench.specs.Benches.{table_of};
ghost use Rattle.bench.specs.Tables.{place_of};

use crate::bench::{Bench, place_of};
use crate::measuring::measure;
use crate::table_walk::{pass_all, send_all};
use field::declined::Declined;
use field::field::{Field, PLACES, ROOM};
use field::hearing::Hearing;
use field::lending::Lending;
use protocol::refusal::Refusal;
use record::Tag;

impl<'a> Bench<'a> {
    /// A bench with no places.
    pub fn new() -> Bench<'a>
        ensures { (table_of result).now ≡ [] }
    {
        Bench { table: &mut [] }
    }

    /// Gives the bench a table in the place of the one that it has. The tags are changed in their places.
    pub fn set_table(&mut self, table: &'a mut [Tag]) -> Result<(), Declined<&'a mut [Tag]>>
        ensures refusal { declined_by result ≡ (if nat_le (length table.old) 64 then None else Some 6) }
        ensures table { OnOk result (table_of self.new ≡ table.entry) }
        ensures same { IfErr result (λ e. (self.new ≡ self.old) × (e.given ≡ table.entry)) }
    {
        if table.len() > PLACES {
            return Err(Declined {
                refusal: Refusal::Crowd,
                given: table,
            });
        }
        measure(table);
        self.table = table;
        Ok(())
    }

    /// Gives the table back.
    pub fn into_inner(self) -> &'a mut [Tag]
        ensures { result ≡ table_of self.entry }
    {
        let Bench { table } = self;
        table
    }

    /// The first place that has a serial number.
    pub fn find(&self, serial: &[u8]) -> Option<usize>
        ensures { result ≡ place_of (table_of self.now).now serial.now }
    {
        place_of(self.table, serial)
    }
}

impl<'a> Field for Bench<'a> {
    ghost tags = { λ b. (table_of b).now };

    ghost few = { λ b. b.few };

    ghost sized = { λ b. b.sized };

    ghost faithful = { λ _. true };

    // It hears every lone reply as lone, and its table stays the caller's.
    ghost hears = { λ b bytes row answer c. IfHeard answer
        (λ h. (h ≡ plain_hearing (on_air (opening bytes) row (table_of b).now))
        × ((table_of c).ghost_name ≡ (table_of b).ghost_name)) b c };

    ghost passes = { λ b _ c. (table_of c).ghost_name ≡ (table_of b).ghost_name };

    fn places(&self) -> usize {
        self.table.len()
    }

    #[tactic(auto, using(field::proofs::Sizes::sized_gapped, field::proofs::Walks::gapped_in_place))]
    fn pass(&mut self, microseconds: u32) {
        pass_all(self.table, microseconds);
    }

    fn send(&mut self, bytes: &[u8], row: u64, buffer: &mut [u8]) -> Result<Hearing, Refusal> {
        if buffer.len() < ROOM {
            return Err(Refusal::Buffer);
        }
        Ok(send_all(self.table, bytes, row, buffer))
    }
}

impl<'a> Lending for Bench<'a> {
    fn tag(&self, place: usize) -> Option<&Tag> {
        self.table.get(place)
    }
}
