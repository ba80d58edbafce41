//! What is wrong with a text of documents.

use yaml_terms::ProfileFault;

/// Why a text is no text of the YAML profile.
#[derive(Clone, Copy, Debug, PartialEq, Eq)]
pub enum YamlWord {
    /// The text has more bytes than are read.
    TooLarge,
    /// The bytes aren't UTF-8.
    NotUtf8,
    /// A line has no place after the lines before it, by this row of the profile's table.
    Form(ProfileFault),
}

impl YamlWord {
    ghost use Rattle.std.specs.Prelude.{◌≡◌};
    ghost use Rattle.record_form.specs.Words.{yaml_word};

    /// Its word, by which a refusal names it.
    pub fn word(self) -> &'static str
        ensures { result.now ≡ yaml_word self }
    {
        match self {
            YamlWord::TooLarge => "too_large",
            YamlWord::NotUtf8 => "not_utf8",
            YamlWord::Form(which) => which.word(),
        }
    }
}
