//! What is said of a key.

ghost use Rattle.std.specs.Prelude.{◌≡◌, IfOk, option_map, string_bytes};
ghost use Rattle.nextest_config_lint.specs.Settings.{seen_field};
ghost use Rattle.nextest_config_lint.specs.Explain.Key.{explained_rule, IsKeyText};
ghost use Rattle.nextest_config_lint.specs.Explain.KeyPath.{key_at};

use crate::explain::absent::absent_text;
use crate::explain::expected::expected_text;
use crate::explain::key_path::field_at;
use crate::explain::places::places_text;
use nextest_config_elements::field::Field;
use nextest_config_elements::purpose::Said;
use std::alloc::{AllocError, Global};

/// A key of a configuration file, and what is said of it.
#[derive(Clone, Copy)]
pub struct KeyExplanation {
    /// Its row in the table of keys.
    pub field: &'static Field,
    /// What it is for, and a value that it may have.
    pub said: Said,
}

impl KeyExplanation {
    /// The key at a path as findings print it. The front of a path below a profile may be left
    /// out, and so may indexes. A path that ends at a name, as `profile.ci`, leads to no key.
    pub fn of(alloc: Global, path: &str) -> Result<Option<KeyExplanation>, AllocError>
        ensures { IfOk result (λ found. option_map explained_rule found ≡ key_at path.now) }
    {
        let field = field_at(alloc, path)?;
        Ok(explained(field))
    }

    /// What is said of the key, in lines for a terminal, the last with its line feed.
    pub fn text(&self, alloc: Global) -> Result<String, AllocError>
        ensures { IfOk result (λ text. IsKeyText (explained_rule self.now)
            self.now.said.sentence.now self.now.said.example.now (string_bytes text)) }
    {
        let value = expected_text(alloc, self.field.shape)?;
        let absent = absent_text(alloc, self.field)?;
        let places = places_text(alloc, self.field.key)?;
        let text = format!(in alloc;
            "{}\n\nValue: {value}\nWhere absent: {absent}\nExample: {} = {}\nStands in: {places}\n",
            self.said.sentence, self.field.key, self.said.example
        )?;
        Ok(text)
    }
}

// The explanation of the key of a field.
fn explained(field: Option<&'static Field>) -> Option<KeyExplanation>
    ensures { option_map explained_rule result
        ≡ option_map (λ field. (seen_field field.now).0) field.entry }
{
    let field = field?;
    Some(KeyExplanation {
        field,
        said: field.purpose.said(),
    })
}
