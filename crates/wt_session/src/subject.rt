// What the commands of a script are about.
ghost use Rattle.std.specs.Prelude.{◌≡◌};
ghost use Rattle.wt_session.specs.Subjects.{subject_of};

use wt_script::Word;

/// What a command is about.
#[derive(Clone, Copy)]
pub enum Subject {
    /// Tile sets.
    Set,
    /// Patterns.
    Pattern,
    /// Chains that are derived.
    Derivation,
    /// Chains, and counts over their loops.
    Chain,
    /// What goes along a chain: tiles, patterns and vectors.
    Expansion,
    /// Partitions of a torus.
    Partition,
    /// Values as text.
    Text,
}

/// What a command is about, by its word.
pub fn about(word: &Word) -> Subject
    ensures { result ≡ subject_of word.now }
{
    match word {
        Word::Tiles { .. }
        | Word::Fuse { .. }
        | Word::Dominoes { .. }
        | Word::Surround { .. }
        | Word::Markers { .. }
        | Word::Same { .. } => Subject::Set,
        Word::Pattern { .. } | Word::Valid { .. } | Word::Period { .. } => Subject::Pattern,
        Word::Search { .. } | Word::Derive { .. } => Subject::Derivation,
        Word::Check { .. }
        | Word::Upgrade { .. }
        | Word::Lighten { .. }
        | Word::Primitive { .. }
        | Word::Seeds { .. }
        | Word::Census { .. } => Subject::Chain,
        Word::Expand { .. } | Word::Image { .. } | Word::Desub { .. } | Word::Bound { .. } =>
            Subject::Expansion,
        Word::Torus { .. } | Word::Code { .. } | Word::Induce { .. } => Subject::Partition,
        Word::Cert { .. } | Word::Draw { .. } | Word::Json { .. } => Subject::Text,
    }
}
