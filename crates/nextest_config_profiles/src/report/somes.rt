//! Lists of what is there.

ghost use Rattle.std.specs.Prelude.{◌≡◌, ◌++◌, OnOk};
ghost use Rattle.nextest_config_profiles.specs.Report.Somes.{some_list};

use std::alloc::AllocError;

/// Pushes what is there, if anything is.
pub(crate) fn push_some<T: Drop>(list: &mut Vec<T>, item: Option<T>) -> Result<(), AllocError>
    ensures { OnOk result (list.new.items ≡ list.old.items ++ some_list item) }
{
    if let Some(item) = item {
        list.push(item)?;
    }
    Ok(())
}
