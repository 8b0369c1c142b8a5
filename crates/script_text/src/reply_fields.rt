//! The fields of a reply.
ghost use Rattle.std.specs.Prelude.{◌≡◌, ◌∷◌, ◌++◌, OnOk, OnErr};
ghost use Rattle.std.specs.Fmt.{signed_decimal};
ghost use Rattle.script_text.specs.Reply.{numbers_fields};
ghost use Rattle.script_text.specs.ReplySteps.{Keeps, fields_text};

use cube_base::Memory;
use itoa::{Buffer, Integer};

// Where it runs out of memory, these and their callers below `append_reply` may have appended a part.

/// Appends TAB and a number.
pub fn append_number<I: Integer>(text: &mut Vec<u8>, number: I) -> Result<(), Memory>
    ensures ok { OnOk result (text.new.items ≡ text.old.items ++ 9 ∷ I.text number) }
    ensures err { OnErr result (Keeps text.old.items text.new.items) }
{
    append_field(text, Buffer::new().format(number).as_bytes())
}

/// Appends TAB and a number with its sign.
pub fn append_signed(text: &mut Vec<u8>, number: i128) -> Result<(), Memory>
    ensures ok { OnOk result (text.new.items ≡ text.old.items ++ 9 ∷ signed_decimal number) }
    ensures err { OnErr result (Keeps text.old.items text.new.items) }
{
    append_number(text, number)
}

/// Appends TAB and a number with its sign, for each of these.
pub fn append_numbers(text: &mut Vec<u8>, numbers: &[i128]) -> Result<(), Memory>
    ensures ok { OnOk result (text.new.items ≡ text.old.items ++ fields_text (numbers_fields numbers.now)) }
    ensures err { OnErr result (Keeps text.old.items text.new.items) }
{
    for number in numbers {
        append_signed(text, *number)?;
    }
    Ok(())
}

/// Appends TAB and these bytes.
pub fn append_field(text: &mut Vec<u8>, field: &[u8]) -> Result<(), Memory>
    ensures ok { OnOk result (text.new.items ≡ text.old.items ++ 9 ∷ field.now) }
    ensures err { OnErr result (Keeps text.old.items text.new.items) }
{
    text.push(b'\t')?;
    text.extend_from_slice(field)?;
    Ok(())
}
