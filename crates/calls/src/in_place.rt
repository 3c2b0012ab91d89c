// The modify message for a stack that "keeps one table for its whole life": the caller's table is changed where it lies. It is one function over the call by
// value, as that was asked for; `modify_on` does the same with no copy of the table.
ghost use Rattle.std.specs.Prelude.{◌≡◌};
ghost use Rattle.calls.specs.Modify.{modify_of};

use crate::modify::modify;
use crate::reply::Reply;
use table::Table;

pub fn modify_in_place(table: &mut Table, bearer: u8, transaction: u8, value: &[u8]) -> Reply
    ensures { (result ≡ (modify_of table.old bearer transaction value.now).reply)
        × (table.new ≡ (modify_of table.old bearer transaction value.now).table) }
{
    let out = modify(*table, bearer, transaction, value);
    *table = out.table;
    out.reply
}
