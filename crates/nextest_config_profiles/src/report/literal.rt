//! Values with how they are written.

ghost use Rattle.std.specs.Prelude.{◌≡◌, IfOk};
ghost use Rattle.toml.specs.View.{view};
ghost use Rattle.nextest_config_profiles.specs.Report.Literal.{IsLiteralOf};

use crate::report::parts::Literal;
use nextest_config_values::literal::value_text;
use std::alloc::{AllocError, Global};
use toml::Value;

impl Literal {
    /// A value, and how it is written.
    pub(crate) fn of(alloc: Global, value: Value) -> Result<Self, AllocError>
        ensures { IfOk result (IsLiteralOf (view value)) }
    {
        let text = value_text(alloc, &value)?;
        Ok(Literal { value, text })
    }
}
