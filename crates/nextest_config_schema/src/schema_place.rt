//! Where in a file a table stands, as far as its schema depends on that.

ghost use Rattle.std.specs.Prelude.{◌≡◌};
ghost use Rattle.nextest_config_elements.specs.Fields.{rule_of};
ghost use Rattle.nextest_config_elements.specs.declared.field.Field.{out-Field};
ghost use Rattle.nextest_config_schema.specs.SchemaPlace.{below, is_wanted};

use nextest_config_elements::field::Field;
use nextest_config_elements::retry_policy::Backoff;

/// Where a value stands.
#[derive(Clone, Copy)]
pub(crate) enum SchemaPlace {
    /// It is the whole file.
    File,
    /// At the key `profile` of a file.
    Profiles,
    /// In the profile `default`, and in none of its arrays.
    DefaultProfile,
    /// In a table of retries with this backoff.
    Retries(Backoff),
    /// Elsewhere.
    Elsewhere,
}

impl SchemaPlace {
    /// Where the value of a key stands, in a table that stands here.
    pub(crate) fn below(self, key: &str) -> SchemaPlace
        ensures { result ≡ below self key.now }
    {
        match self {
            SchemaPlace::File if key == "profile" => SchemaPlace::Profiles,
            SchemaPlace::File => SchemaPlace::Elsewhere,
            _ => self,
        }
    }

    /// Whether a table that stands here has to have the key of the field. nextest's own
    /// configuration has the periods of its default profile.
    pub(crate) fn wants(self, field: &Field) -> bool
        ensures { result ≡ is_wanted self (rule_of (out-Field field.now)) }
    {
        match self {
            SchemaPlace::DefaultProfile => field.required & (field.key != "period"),
            _ => field.required,
        }
    }
}
