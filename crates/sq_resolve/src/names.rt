// The variables that binders add.
ghost use Rattle.std.specs.Prelude.{◌≡◌, ◌++◌, OnOk};
ghost use Rattle.sq_resolve.specs.Resolved as spec;
ghost use Rattle.sq_resolve.specs.Resolved.{group_variables, variables};
ghost use Rattle.sq_term.specs.Pure as pure;

use sq_ast::Binders;
use sq_base::{NoMemory, Seq, Sort, Text};
use std::alloc::Global;

pub fn is_binder_sort(sort: Sort) -> bool
    ensures { result ≡ pure.is_binder_sort sort }
{
    match sort {
        Sort::Index | Sort::Timestamp => true,
        Sort::Message | Sort::Boolean => false,
    }
}

/// Whether each group binds indices or timestamps.
pub fn bind_no_message(groups: &[Binders]) -> bool
    ensures { result ≡ spec.bind_no_message groups.now }
{
    let mut all = true;
    for group in groups {
        all &= is_binder_sort(group.1);
    }
    all
}

/// Adds variables of one sort, the first one outermost.
pub fn push_names(
    alloc: Global,
    around: &mut Seq<(Text, Sort)>,
    names: &[Text],
    sort: Sort,
) -> Result<(), NoMemory>
    ensures { OnOk result (around.new ≡ around.old ++ group_variables sort names.now) }
{
    for name in names {
        let copy = name.copy(alloc)?;
        around.push((copy, sort))?;
    }
    Ok(())
}

/// Adds the variables of the groups, the first one outermost.
pub fn push_groups(
    alloc: Global,
    around: &mut Seq<(Text, Sort)>,
    groups: &[Binders],
) -> Result<(), NoMemory>
    ensures { OnOk result (around.new ≡ around.old ++ variables groups.now) }
{
    for group in groups {
        push_names(alloc, around, group.0.as_slice(), group.1)?;
    }
    Ok(())
}
