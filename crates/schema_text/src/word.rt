//! The words that a schema is made of.
ghost use Rattle.std.specs.Prelude.{◌≡◌, ◌≤◌};
ghost use Rattle.cube_model.specs.Limits.{MAX_DIMS};
ghost use Rattle.text_lines.specs.Text.{fields_of};
ghost use Rattle.schema_text.specs.declared.word.SchemaWord.TheVariants as schema_word;
ghost use Rattle.schema_text.specs.SchemaText.{has_wrong_count, is_end, is_node_word, is_weight_word, may_follow, node_field_count, policy_field_count, version_named, version_text, word_named};

use text_lines::{field_at, field_count, is_text, without_cr};

/// The first field of a line of a schema.
#[derive(Clone, Copy)]
pub enum SchemaWord {
    /// The version, on the first line.
    Cube,
    /// The policy.
    Policy,
    /// A number measure.
    Number,
    /// A measure of distributions.
    Parts,
    /// A dimension, whose nodes follow.
    Dimension,
    /// A node of the dimension that was named last.
    Node,
    /// A view.
    View,
    /// The last line.
    End,
}

/// The version of a schema's text.
#[derive(Clone, Copy)]
pub enum Version {
    /// The number of each node is its place in its dimension.
    One,
    /// The line of a node gives its number.
    Two,
}

/// How the cells of a schema weigh.
#[derive(Clone, Copy, Debug, PartialEq, Eq)]
pub enum PolicyWord {
    /// Every cell weighs the same.
    Uniform,
    /// A cell weighs as much as it has precise facts.
    Count,
    /// A cell weighs the sum of the number measure at this place over its precise facts.
    Weight(u32),
}

/// The word that bytes spell.
pub fn word_named(bytes: &[u8]) -> Option<SchemaWord>
    ensures { result ≡ word_named bytes.now }
{
    if is_text(bytes, "cube") {
        Some(SchemaWord::Cube)
    } else if is_text(bytes, "policy") {
        Some(SchemaWord::Policy)
    } else if is_text(bytes, "number") {
        Some(SchemaWord::Number)
    } else if is_text(bytes, "parts") {
        Some(SchemaWord::Parts)
    } else if is_text(bytes, "dimension") {
        Some(SchemaWord::Dimension)
    } else if is_text(bytes, "node") {
        Some(SchemaWord::Node)
    } else if is_text(bytes, "view") {
        Some(SchemaWord::View)
    } else if is_text(bytes, "end") {
        Some(SchemaWord::End)
    } else {
        None
    }
}

/// Whether a line is `end`.
pub fn is_end(line: &[u8]) -> bool
    ensures { result ≡ is_end line.now }
{
    is_text(without_cr(line), "end")
}

/// The version that bytes name.
pub fn version_named(bytes: &[u8]) -> Option<Version>
    ensures { result ≡ version_named bytes.now }
{
    if is_text(bytes, "1") {
        Some(Version::One)
    } else if is_text(bytes, "2") {
        Some(Version::Two)
    } else {
        None
    }
}

/// How a version is spelled.
pub fn version_text(version: Version) -> &'static str
    ensures { result.now ≡ version_text version }
{
    match version {
        Version::One => "1",
        Version::Two => "2",
    }
}

/// Whether bytes name the policy that takes the name of a measure.
pub fn is_weight_word(bytes: &[u8]) -> bool
    ensures { result ≡ is_weight_word bytes.now }
{
    is_text(bytes, "weight")
}

/// Whether a line of a word may stand after one of another; `None` stands for no line.
pub fn may_follow(before: Option<SchemaWord>, word: SchemaWord) -> bool
    ensures { result ≡ may_follow before word }
{
    match word {
        SchemaWord::Cube => before.is_none(),
        SchemaWord::Policy => matches!(before, Some(SchemaWord::Cube)),
        SchemaWord::Number | SchemaWord::Parts => is_before_measures(before),
        SchemaWord::Dimension => is_before_measures(before) || is_node(before),
        SchemaWord::Node => is_node(before) || matches!(before, Some(SchemaWord::Dimension)),
        SchemaWord::View | SchemaWord::End => is_before_end(before),
    }
}

/// Whether a line is one of the policy or of a measure.
fn is_before_measures(before: Option<SchemaWord>) -> bool
    ensures { result ≡ may_follow before schema_word.Number }
{
    matches!(
        before,
        Some(SchemaWord::Policy | SchemaWord::Number | SchemaWord::Parts)
    )
}

/// Whether a line is that of a node.
fn is_node(before: Option<SchemaWord>) -> bool
    ensures { result ≡ is_node_word before }
{
    matches!(before, Some(SchemaWord::Node))
}

/// Whether a line is that of a node or of a view.
fn is_before_end(before: Option<SchemaWord>) -> bool
    ensures { result ≡ may_follow before schema_word.End }
{
    matches!(before, Some(SchemaWord::Node | SchemaWord::View))
}

/// Whether a line of a word has too few or too many fields in a version, where so many dimensions are named.
pub fn has_wrong_count(version: Version, dims: usize, line: &[u8], word: SchemaWord) -> bool
    requires { dims ≤ MAX_DIMS }
    ensures { result ≡ has_wrong_count version dims (fields_of line.now) word }
{
    let count = field_count(line);
    match word {
        SchemaWord::Cube | SchemaWord::Number | SchemaWord::Dimension => count != 2,
        SchemaWord::Policy => count != policy_field_count(field_at(line, 1)),
        SchemaWord::Parts => count < 5 || count > 10,
        SchemaWord::Node => count != node_field_count(version),
        SchemaWord::View => count != dims + 2,
        SchemaWord::End => count != 1,
    }
}

/// The number of fields of the line of a policy of this word.
fn policy_field_count(word: &[u8]) -> usize
    ensures { result ≡ policy_field_count word.now }
{
    if is_weight_word(word) { 3 } else { 2 }
}

/// The number of fields of the line of a node in a version.
fn node_field_count(version: Version) -> usize
    ensures { result ≡ node_field_count version }
{
    match version {
        Version::One => 3,
        Version::Two => 4,
    }
}
