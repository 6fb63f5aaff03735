//! Texts that are lent, and texts of their own.

ghost use Rattle.std.specs.Prelude.{◌≡◌, IfOk, map, string_bytes};
ghost use Rattle.nextest_config_profiles.specs.Reach.{words_of};

use std::alloc::{AllocError, Global};

/// Texts that are lent, as texts of their own.
pub(crate) fn copies(alloc: Global, names: &[&str]) -> Result<Vec<String>, AllocError>
    ensures { IfOk result (λ copies. map string_bytes copies.items ≡ words_of names.now) }
{
    let mut copies = Vec::new(alloc);
    for name in names {
        copies.push(String::from_str(alloc, name)?)?;
    }
    Ok(copies)
}

/// Texts, as words that are lent.
pub(crate) fn lent<'t>(alloc: Global, texts: &'t [String]) -> Result<Vec<&'t str>, AllocError>
    ensures { IfOk result (λ words. words_of words.items ≡ map string_bytes texts.now) }
{
    let mut words = Vec::new(alloc);
    for text in texts {
        words.push(text.as_str())?;
    }
    Ok(words)
}
