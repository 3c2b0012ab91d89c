// The module's status, written.
ghost use Rattle.std.specs.Prelude.{◌≡◌};
ghost use Rattle.status.specs.Write.{status_of, unwritten_number, status_number, write_status_of};

use crate::value::{STATUS_OCTETS, show};
use table::Table;
use table::bearer::FIRST_IDENTITY;

#[derive(Clone, Copy, PartialEq, Eq)]
pub enum StatusUnwritten {
    NotWellFormed,
    NoRoom,
}

impl StatusUnwritten {
    pub fn number(self) -> u8
        ensures { result ≡ unwritten_number self }
    {
        match self {
            StatusUnwritten::NotWellFormed => 1,
            StatusUnwritten::NoRoom => 9,
        }
    }
}

// 0 where it was written.
pub fn status_number(written: Result<(), StatusUnwritten>) -> u8
    ensures { result ≡ status_number written }
{
    match written {
        Ok(()) => 0,
        Err(why) => why.number(),
    }
}

#[tactic(auto, using(laws::proofs::Index::done, laws::proofs::Index::walk_more, laws::proofs::Index::walk_start), unfolding(crate::specs::Write::showing_at, crate::specs::Write::status_of))]
fn status_of(table: &Table) -> [u8; STATUS_OCTETS]
    ensures { result ≡ status_of table.now }
{
    let mut value = [0; STATUS_OCTETS];
    for (i, bearer) in table.bearers.iter().enumerate() {
        if !bearer.role.is_idle() {
            show(&mut value, i as u8 + FIRST_IDENTITY);
        }
    }
    value
}

#[tactic(auto, using(crate::proofs::Values::status_long, crate::proofs::Writing::write_fit, crate::proofs::Writing::write_malformed, crate::proofs::Writing::write_short))]
pub fn write_status(table: &Table, buffer: &mut [u8]) -> Result<(), StatusUnwritten>
    ensures { (result ≡ (write_status_of table.now buffer.old).written) × (buffer.new ≡ (write_status_of table.now buffer.old).buffer) }
{
    if !table.well_formed() {
        return Err(StatusUnwritten::NotWellFormed);
    }
    if buffer.len() < STATUS_OCTETS {
        return Err(StatusUnwritten::NoRoom);
    }
    buffer[..STATUS_OCTETS].copy_from_slice(&status_of(table));
    Ok(())
}
