// Entries that are numbers or none, as they are read and printed.
ghost use Rattle.std.specs.Prelude.{◌≡◌, ℕ, ◌<◌, ◌⊎◌, ◌++◌, IfOk, OnOk, IsErrOf, length, map, All, MatchOption, codes, fold};
ghost use Rattle.std.specs.List.{join_by};
ghost use Rattle.elements.specs.Hashes.{entry_number, entries_hash};
ghost use Rattle.elements.specs.Fields.{IsBelow, field_of, IsBelowOrDash, IsFirstRefused, decimal_or_dash};

use super::field::{ElementFault, Field};
use itoa::Buffer;
use ports::NoMemory;
use std::alloc::Global;
use std::hash::Hasher;

// The entry that a field names, if it is a dash or a number below the limit.
fn optional_below(field: Field, limit: u64) -> Option<Option<u32>>
    ensures { MatchOption result (IsBelowOrDash limit field → ⊥)
        (λ e. (field ≡ field_of e) × IsBelow limit e × IsBelowOrDash limit field) }
{
    match field {
        Field::Number(y) if (y as u64) < limit => Some(Some(y)),
        Field::Dash => Some(None),
        _ => None,
    }
}

// The entries that the fields name: each a dash or a number below the limit.
pub(crate) fn read_optional(
    alloc: Global,
    limit: u64,
    fields: &[Field],
) -> Result<Vec<Option<u32>>, ElementFault>
    ensures entries { IfOk result (λ v. map field_of v.items ≡ fields.now) }
    ensures in_range { IfOk result (λ v. All (IsBelow limit) v.items) }
    ensures good { IfOk result (λ v. All (IsBelowOrDash limit) fields.now) }
    ensures entry { (place : ℕ) → IsErrOf result (ElementFault.BadEntry place)
        → IsFirstRefused (IsBelowOrDash limit) fields.now place }
    ensures refused { (place : ℕ) → IsFirstRefused (IsBelowOrDash limit) fields.now place
        → IsErrOf result (ElementFault.BadEntry place) ⊎ IsErrOf result ElementFault.NoMemory }
    ensures count { IsErrOf result ElementFault.BadCount → ⊥ }
    ensures injective { (place : ℕ) → IsErrOf result (ElementFault.NotInjective place) → ⊥ }
{
    let mut entries = Vec::with_capacity(alloc, fields.len())?;
    for (i, field) in fields.iter().enumerate() {
        match optional_below(*field, limit) {
            Some(entry) => entries.push(entry)?,
            None => return Err(ElementFault::BadEntry(i)),
        }
    }
    Ok(entries)
}

// The number that stands for an entry: 0 for none, and else the entry plus one.
fn number_of(entry: Option<u32>) -> u64
    ensures { result ≡ entry_number entry }
{
    match entry {
        Some(y) => y as u64 + 1,
        None => 0,
    }
}

// Feeds a hasher one number for each entry. The shape is left out, since the elements of a set
// have the same one.
pub(crate) fn hash_entries<H: Hasher>(entries: &[Option<u32>], state: &mut H)
    ensures { state.new ≡ fold H.write state.old (entries_hash entries.now) }
{
    for entry in entries {
        state.write_u64(number_of(*entry));
    }
}

// Adds an entry in decimal, or a dash.
fn push_entry(text: &mut Vec<u8>, entry: Option<u32>) -> Result<(), NoMemory>
    ensures { OnOk result (text.new.items ≡ text.old.items ++ decimal_or_dash entry) }
{
    match entry {
        Some(y) => {
            let mut buffer = Buffer::new();
            text.extend_from_slice(buffer.format(y).as_bytes())?;
        }
        None => text.push(b'-')?,
    }
    Ok(())
}

// The entries in decimal, with one space between each two; `-` for none.
pub(crate) fn print_optional(alloc: Global, entries: &[Option<u32>]) -> Result<Vec<u8>, NoMemory>
    ensures { IfOk result (λ text. text.items ≡ join_by decimal_or_dash (codes " ") entries.now) }
{
    let mut text = Vec::new(alloc);
    for (i, entry) in entries.iter().enumerate() {
        if 0 < i {
            text.push(b' ')?;
        }
        push_entry(&mut text, *entry)?;
    }
    Ok(text)
}
