// Rows of a table as texts.
ghost use Rattle.std.specs.Prelude.{◌≡◌, ℕ, ◌+◌, ◌<◌, ◌≤◌, ◌++◌, map, length, IfOk, OnOk, IsErrOf, codes, Some, Option};
ghost use Rattle.std.specs.List.{join_by};
ghost use Rattle.std.specs.Option.{ForSome};
ghost use Rattle.cells.specs.Rows.{flat};
ghost use Rattle.table_texts.specs.TableText.{target_text, row_text, has_leading_zero, number_of, target_read, row_read, IsGoodRow, IsFirstInRow, IsFaultless, IsLeastFault, texts, fields_cut, rows_cut};

use crate::fault::TableFault;
use cells::Entry;
use itoa::Buffer;
use ports::NoMemory;
use std::alloc::{AllocError, Global};

// Adds the number of the node that an edge leads to, in decimal; nothing where there is no edge.
fn push_target(text: &mut Vec<u8>, target: Option<usize>) -> Result<(), NoMemory>
    ensures { OnOk result (text.new.items ≡ text.old.items ++ target_text target) }
{
    if let Some(node) = target {
        let mut buffer = Buffer::new();
        text.extend_from_slice(buffer.format(node).as_bytes())?;
    }
    Ok(())
}

/// The targets of a row in decimal, with a comma between each two. Refused only where memory is
/// wanting.
pub fn print_row(alloc: Global, entries: &[Entry]) -> Result<Vec<u8>, NoMemory>
    ensures { IfOk result (λ text. text.items ≡ row_text entries.now) }
{
    let mut text = Vec::new(alloc);
    for (i, entry) in entries.iter().enumerate() {
        if 0 < i {
            text.push(b',')?;
        }
        push_target(&mut text, entry.value())?;
    }
    Ok(text)
}

// Whether a field begins with a zero and goes on.
fn has_leading_zero(field: &[u8]) -> bool
    ensures { result ≡ has_leading_zero field.now }
{
    2 <= field.len() && field[0] == b'0'
}

// The number of one to four decimal digits without a leading zero, if the field is one.
fn number_of(field: &[u8]) -> Option<usize>
    ensures number { result ≡ number_of field.now }
    ensures small { ForSome result (λ n. n < 10_000) }
{
    if field.is_empty() || field.len() > 4 || has_leading_zero(field) {
        return None;
    }
    let mut number = 0usize;
    for byte in field {
        if !byte.is_ascii_digit() {
            return None;
        }
        number = number * 10 + usize::from(*byte - b'0');
    }
    Some(number)
}

// The node of a table of so many rows that a field names.
fn read_target(nodes: usize, field: &[u8]) -> Option<usize>
    ensures target { result ≡ target_read nodes field.now }
    ensures small { ForSome result (λ n. n < 10_000) }
{
    number_of(field).filter(|number| *number < nodes)
}

// The texts that commas part.
fn fields_of(alloc: Global, text: &[u8]) -> Result<Vec<&[u8]>, AllocError>
    ensures { IfOk result (λ fields. texts fields.items ≡ fields_cut text.now) }
{
    text.split(|byte| *byte == b',').collect(alloc)
}

/// The texts that slashes part.
pub fn rows_of(alloc: Global, text: &[u8]) -> Result<Vec<&[u8]>, AllocError>
    ensures { IfOk result (λ rows. texts rows.items ≡ rows_cut text.now) }
{
    text.split(|byte| *byte == b'/').collect(alloc)
}

// Adds the targets that the fields of a row name, in a table of so many rows and letters. Where
// something is wrong, the place is that of the first such field, or of the one that is wanting.
fn read_fields(
    entries: &mut Vec<Entry>,
    letters: usize,
    nodes: usize,
    fields: &[&[u8]],
) -> Result<(), TableFault>
    ensures ok { OnOk result (entries.new.items
        ≡ entries.old.items ++ map (target_read nodes) (texts fields.now)) }
    ensures good { OnOk result (IsGoodRow letters (map (target_read nodes) (texts fields.now))) }
    ensures bad { (place : ℕ) → IsErrOf result (TableFault.BadTable place)
        → (j : ℕ) × (place ≡ length entries.old.items + j)
        × IsFirstInRow letters (map (target_read nodes) (texts fields.now)) j }
{
    for (place, field) in fields.iter().enumerate() {
        if place == letters {
            return Err(TableFault::BadTable(entries.len()));
        }
        match read_target(nodes, field) {
            Some(node) => entries.push(Entry::new(Some(node)))?,
            None => return Err(TableFault::BadTable(entries.len())),
        }
    }
    if fields.len() < letters {
        return Err(TableFault::BadTable(entries.len()));
    }
    Ok(())
}

// The same for the text of a row.
fn read_row(
    alloc: Global,
    entries: &mut Vec<Entry>,
    letters: usize,
    nodes: usize,
    text: &[u8],
) -> Result<(), TableFault>
    ensures ok { OnOk result (entries.new.items ≡ entries.old.items ++ row_read nodes text.now) }
    ensures good { OnOk result (IsGoodRow letters (row_read nodes text.now)) }
    ensures bad { (place : ℕ) → IsErrOf result (TableFault.BadTable place)
        → (j : ℕ) × (place ≡ length entries.old.items + j)
        × IsFirstInRow letters (row_read nodes text.now) j }
{
    let fields = fields_of(alloc, text)?;
    match read_fields(entries, letters, nodes, fields.as_slice()) {
        Ok(()) => Ok(()),
        Err(fault) => return Err(fault),
    }
}

/// The most rows of a table that is read.
pub const MOST_ROWS: usize = 1024;

/// The targets that the texts of rows name, row after row, in a table of so many letters, or the
/// least place at which something is wrong.
pub fn read_rows(alloc: Global, letters: usize, pieces: &[&[u8]]) -> Result<Vec<Entry>, TableFault>
    requires { letters ≤ 256 }
    ensures ok { IfOk result (λ entries. entries.items
        ≡ flat (map (row_read (length pieces.now)) (texts pieces.now))) }
    ensures good { OnOk result
        (IsFaultless letters (map (row_read (length pieces.now)) (texts pieces.now))) }
    ensures bad { (place : ℕ) → IsErrOf result (TableFault.BadTable place)
        → IsLeastFault letters (map (row_read (length pieces.now)) (texts pieces.now)) place }
{
    let mut entries = Vec::new(alloc);
    for (i, text) in pieces.iter().enumerate() {
        if i == MOST_ROWS {
            return Err(TableFault::BadTable(entries.len()));
        }
        match read_row(alloc, &mut entries, letters, pieces.len(), text) {
            Ok(()) => {}
            Err(fault) => return Err(fault),
        }
    }
    Ok(entries)
}
