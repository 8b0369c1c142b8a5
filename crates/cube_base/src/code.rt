//! The codes of refusals.
ghost use Rattle.std.specs.Prelude.{◌≡◌};
ghost use Rattle.cube_base.specs.Code.{word_of};

/// Why a line, a schema, a record, a store or an edit is refused.
#[derive(Clone, Copy, Debug, PartialEq, Eq)]
pub enum Code {
    /// A line has more than 4,096 bytes.
    Long,
    /// The bytes are not UTF-8; a line's are refused for a control byte other than TAB too.
    Text,
    /// No command begins with this field.
    Command,
    /// A line has too few or too many fields for its word.
    Fields,
    /// An id is misspelled, 0, or 2^63 or more.
    Id,
    /// No node of the dimension has this name.
    Node,
    /// No measure has this name, or it is of another kind than is asked for.
    Measure,
    /// A value is misspelled, or above 10^12 in absolute value.
    Value,
    /// Parts are misspelled, too few or too many for the measure's outcomes, or do not add up to its scale.
    Parts,
    /// A fact to insert has the id of another.
    Exists,
    /// No fact has the id that is changed, withdrawn or asked for.
    Missing,
    /// A fact's region is larger than 2^20 cells.
    Region,
    /// No fact more can be held: 2^20 are.
    Facts,
    /// After the edit there would be more rows than 2^21.
    Rows,
    /// There is nothing to divide by: the count is 0.
    Undefined,
    /// The worlds to list pass 65,536.
    Many,
    /// The denominators multiply to more than 2^60.
    Wide,
    /// A name is misspelled, stands there already, or is that of no view.
    Name,
    /// A schema line begins with a word that there is not, or not at this place.
    Order,
    /// No policy has this name.
    Policy,
    /// The version, a depth or a scale is misspelled or out of its range.
    Number,
    /// A node lies at a depth that does not follow from the line before.
    Depth,
    /// There are too many dimensions, nodes, columns or views.
    Limit,
    /// The space has 2^62 cells or more.
    Cells,
    /// The space has 2^62 regions or more.
    Nodes,
    /// The last line of the schema is missing.
    Cut,
    /// After the schema's last line stands one that says something.
    Tail,
    /// A CSV file does not begin with the columns of the schema.
    Header,
}

impl Code {
    /// The word of the code, as replies and messages print it.
    pub fn word(self) -> &'static str
        ensures { result.now ≡ word_of self }
    {
        match self {
            Code::Long => "long",
            Code::Text => "text",
            Code::Command => "command",
            Code::Fields => "fields",
            Code::Id => "id",
            Code::Node => "node",
            Code::Measure => "measure",
            Code::Value => "value",
            Code::Parts => "parts",
            Code::Exists => "exists",
            Code::Missing => "missing",
            Code::Region => "region",
            Code::Facts => "facts",
            Code::Rows => "rows",
            Code::Undefined => "undefined",
            Code::Many => "many",
            Code::Wide => "wide",
            Code::Name => "name",
            Code::Order => "order",
            Code::Policy => "policy",
            Code::Number => "number",
            Code::Depth => "depth",
            Code::Limit => "limit",
            Code::Cells => "cells",
            Code::Nodes => "nodes",
            Code::Cut => "cut",
            Code::Tail => "tail",
            Code::Header => "header",
        }
    }
}
