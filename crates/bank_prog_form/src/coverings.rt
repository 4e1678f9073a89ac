//! Which registers the run of an access covers.

ghost use Rattle.std.specs.Prelude.{◌≡◌, ◌++◌, OnOk};
ghost use Rattle.std.specs.List.{flat_map};
ghost use Rattle.bank_prog_form.specs.Rows as lines;
ghost use Rattle.bank_prog_form.specs.inner.Form.{access_view};
ghost use Rattle.bank_prog_form.specs.inner.Owners as owners;

use crate::column::Column;
use crate::form::Access;
use nv_base::NoMemory;

/// Whether the run of an access that begins at f covers register r.
fn covers(a: Access, f: u8, r: u8) -> bool
    ensures { result ≡ owners.covers_at (access_view a) r f }
{
    f <= r && u64::from(r) < u64::from(f) + u64::from(a.words)
}

/// The column that an access begins at f, where its run then covers r.
fn add_covering(cs: &mut Vec<Column>, a: Access, r: u8, f: u8) -> Result<(), NoMemory>
    ensures { OnOk result (cs.new.items ≡ cs.old.items ++ owners.covering_at (access_view a) r f) }
{
    if covers(a, f, r) {
        cs.push(Column::First(a.point, f))?;
    }
    Ok(())
}

fn add_coverings_at(cs: &mut Vec<Column>, a: Access, r: u8, firsts: &[u8]) -> Result<(), NoMemory>
    ensures { OnOk result (cs.new.items ≡ cs.old.items ++ flat_map (owners.covering_at (access_view a) r) firsts.now) }
{
    for f in firsts {
        add_covering(cs, a, r, *f)?;
    }
    Ok(())
}

/// The columns that an access begins where its run covers r.
pub fn add_coverings(cs: &mut Vec<Column>, a: Access, r: u8) -> Result<(), NoMemory>
    ensures { OnOk result (cs.new.items ≡ cs.old.items ++ lines.covering r (access_view a)) }
{
    add_coverings_at(cs, a, r, &[0, 1, 2, 3, 4, 5, 6, 7])
}
