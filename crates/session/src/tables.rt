// A table's lines, and those of its held lists.
use filter::Filter;
use filter::component::PRECEDENCES;
use script::filters::Row;
use script::kinds::RoleKind;
use std::fmt;
use std::ops::RangeInclusive;
use table::bearer::{BEARERS, FIRST_IDENTITY, LAST_IDENTITY, index_of};
use table::list::decoded;
use table::{Bearer, Role, Table};

pub(crate) fn identities() -> RangeInclusive<u8> {
    FIRST_IDENTITY..=LAST_IDENTITY
}

// Which bearers are active, the one with the first identity first.
pub(crate) fn active(table: &Table) -> [bool; BEARERS] {
    let mut found = [false; BEARERS];
    for (is_active, bearer) in found.iter_mut().zip(&table.bearers) {
        *is_active = !bearer.role.is_idle();
    }
    found
}

// An idle bearer that holds nothing has no line.
fn is_bare(bearer: &Bearer) -> bool {
    bearer.role.is_idle() && bearer.transaction == 0 && bearer.row.iter().all(Filter::empty_place)
}

#[derive(Clone, Copy)]
pub(crate) struct TableLines<'a>(pub(crate) &'a Table);

impl fmt::Display for TableLines<'_> {
    fn fmt<W: fmt::Write>(&self, f: &mut fmt::Formatter<W>) -> fmt::Result {
        let table = self.0;
        for (identity, bearer) in identities().zip(&table.bearers) {
            if !is_bare(bearer) {
                write!(f, "bearer {identity} ")?;
                match bearer.role {
                    Role::Idle => write!(f, "{}", RoleKind::Idle)?,
                    Role::Default => write!(f, "{}", RoleKind::Default)?,
                    Role::Dedicated(link) => write!(f, "{} {link}", RoleKind::Dedicated)?,
                }
                writeln!(f, " transaction {}", bearer.transaction)?;
                write!(f, "{}", Row(&bearer.row))?;
            }
        }
        writeln!(f, "end")
    }
}

// An entry that names nothing has no line.
#[derive(Clone, Copy)]
pub(crate) struct ListLines<'a> {
    pub(crate) table: &'a Table,
    pub(crate) identity: u8,
}

impl fmt::Display for ListLines<'_> {
    fn fmt<W: fmt::Write>(&self, f: &mut fmt::Formatter<W>) -> fmt::Result {
        let table = self.table;
        if let Some(list) = table.lists.chunks(PRECEDENCES).nth(index_of(self.identity)) {
            for (position, cell) in list.iter().enumerate() {
                let entry = decoded(*cell);
                if entry.bearer != 0 {
                    let (bearer, place) = (entry.bearer, entry.place);
                    writeln!(f, "position {position} bearer {bearer} identifier {place}")?;
                }
            }
        }
        writeln!(f, "end")
    }
}
