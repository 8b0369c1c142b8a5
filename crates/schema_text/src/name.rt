//! Names in fields.
ghost use Rattle.std.specs.Prelude.{◌≡◌, true, IfOk};
ghost use Rattle.std.specs.Str.{bytes_eq};
ghost use Rattle.cube_base.specs.Name.{is_name};
ghost use Rattle.schema_text.specs.SchemaText.{is_among_names, is_wrong_name};

use cube_base::{Memory, Name};
use std::alloc::Global;
use std::str;

/// Whether bytes keep the rule on names.
pub fn is_name(bytes: &[u8]) -> bool
    ensures { result ≡ is_name bytes.now }
{
    match str::from_utf8(bytes) {
        Ok(text) => cube_base::is_name(text),
        Err(_) => false,
    }
}

/// Whether bytes are no name, or one of these names.
pub fn is_wrong_name(bytes: &[u8], names: &[Name]) -> bool
    ensures { result ≡ is_wrong_name bytes.now names.now }
{
    !is_name(bytes) || is_among_names(bytes, names)
}

/// Whether bytes are one of these names.
fn is_among_names(bytes: &[u8], names: &[Name]) -> bool
    ensures { result ≡ is_among_names bytes.now names.now }
{
    names.iter().any(|name| has_bytes(name, bytes))
}

/// Whether a name has these bytes.
pub fn has_bytes(name: &Name, bytes: &[u8]) -> bool
    ensures { result ≡ bytes_eq name.now bytes.now }
{
    name.text().as_bytes() == bytes
}

/// The name of these bytes.
pub fn name_of(alloc: Global, bytes: &[u8]) -> Result<Name, Memory>
    requires { is_name bytes.now ≡ true }
    ensures { IfOk result (λ name. name ≡ bytes.now) }
{
    Ok(Name::new(alloc, text_of(bytes))?.unwrap())
}

/// The text of these bytes, which are a name.
pub fn text_of(bytes: &[u8]) -> &str
    requires { is_name bytes.now ≡ true }
    ensures { result.now ≡ bytes.now }
{
    match str::from_utf8(bytes) {
        Ok(text) => text,
        Err(_) => unreachable!(),
    }
}
